//! Documents with a fault, or with several of which the earlier is told: the path of the fault and its cause.

use documents::reader::{DocFault, read_document};
use std::alloc::{AllocError, Global};
use std::process::Abort;
use std::test::Fail;

/// A row is a document, the path of its first fault, and the cause. `$` stands for the type of a byte, and `~` for a long name,
/// in a path for what is told of it.
static FAULTS: &str = r#"{"groups":7,"root":"g"||BadJson
{"root":7,"groups":{"g":{"links":7}},"apiVersion":7}|apiVersion|NotADocument
{"datatypes":7,"datasets":{"d":{$,"value":"x"}}}|datasets/d/value|BadValue
{"datasets":{"x":{$}},"datatypes":{"x":{"attributes":7},"y":7}}|datatypes/x|NotADocument
{"groups":{"9":7,"10":7}}|groups/10|NotADocument
{"groups":{"g":{"attributes":[{"name":"b",$,"value":1},{"name":"a"},{"name":"b"}]}}}|groups/g/attributes/1/type|BadType
{"groups":{"g":{"attributes":[{"value":null,"shape":[2,32769],$,"name":"a"}]}}}|groups/g/attributes/0/value|Limit
{"groups":{"g":{"links":[{"title":"b","id":"g"},{"title":"a","id":"h"},{"title":"b","id":"g"}]}}}|groups/g/links/1|BadLink
{"groups":{"g":{"links":[{"title":"a/b","id":"h"}]}}}|groups/g/links/0/title|BadName
{"datasets":{"d":{"creationProperties":7,"shape":"x",$}}}|datasets/d/shape|BadShape
{"datasets":{"d":{$,"creationProperties":{"filters":7,"layout":{"class":"H5D_CHUNKED","dims":[1]}}}}}|datasets/d/creationProperties/layout|BadLayout
{"groups":{"~":{}},"root":7}|groups/~|NotADocument"#;

/// A text in which the type stands, and a name of so many letters of two bytes.
fn spelled(alloc: Global, text: &str, letters: usize) -> Result<String, AllocError> {
    let text = text.replace(alloc, "$", r#""type":"H5T_STD_I8LE""#)?;
    let name = "é".repeat(alloc, letters)?;
    text.replace(alloc, "~", name.as_str())
}

/// The path of a document's fault and its cause.
fn told(alloc: Global, document: &str) -> Result<String, AllocError> {
    match read_document(alloc, document.as_bytes()) {
        Ok(_) => String::from_str(alloc, "read"),
        Err(DocFault::NoMemory) => String::from_str(alloc, "no memory"),
        Err(DocFault::Refused { path, cause }) => format!(in alloc; "{}|{cause:?}", path.text()),
    }
}

#[test]
fn the_first_fault_is_told_with_its_path_and_cause(rt: HostRuntime) -> Result<(), Fail> {
    let alloc = rt.alloc();
    for row in FAULTS.split('\n') {
        let (document, fault) = row.split_once('|').ok_or("no fault")?;
        let got = told(alloc, spelled(alloc, document, 1500)?.as_str())?;
        // A path is told up to the last letter that ends within 1,024 bytes.
        let wanted = spelled(alloc, fault, 508)?;
        assert!(rt; got.as_str() == wanted.as_str(), "{row} was told as {got}");
    }
    Ok(())
}
