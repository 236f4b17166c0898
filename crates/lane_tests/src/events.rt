//! Events as words: `cut` draws a cut, `reg` cuts the register, `0` and `1` are the next turns of the two lanes, `app`
//! appends and `set` settles, `app!` and `set!` do it in vain, and every other word is a request's name.

use crate::requests::row_of;
use crate::services::Service;
use std::test::Fail;

fn expect(done: bool, wanted: bool) -> Result<(), Fail> {
    if done == wanted {
        return Ok(());
    }
    Err(Fail::from("a journal's other answer"))
}

fn ask(service: &mut Service, name: &str) -> Result<(), Fail> {
    let row = row_of(name);
    if row.is_empty() {
        return Err(Fail::from("no event"));
    }
    service.ask(row)
}

fn happen(service: &mut Service, word: &str) -> Result<(), Fail> {
    match word {
        "cut" => service.draw_cut(),
        "reg" => service.cut_register(),
        "0" | "1" => service.turn(u32::from(word == "1")),
        "app" | "app!" => expect(service.append()?, word == "app"),
        "set" | "set!" => expect(service.settle(), word == "set"),
        name => ask(service, name),
    }
}

/// So many first events of a list.
pub(crate) fn happen_first(service: &mut Service, words: &str, many: usize) -> Result<(), Fail> {
    for (at, word) in words.split_ascii_whitespace().enumerate() {
        if at < many {
            happen(service, word)?;
        }
    }
    Ok(())
}
