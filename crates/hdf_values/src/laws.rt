//! Laws about values and their bytes.

ghost use Rattle.std.specs.Prelude.{◌≡◌, ◌↔◌, ◌⊎◌, ◌<◌, ◌≤◌, ℕ, ◌+◌, ◌*◌, List, [], ◌∷◌, ◌++◌, Some, Ok, Err};
ghost use Rattle.std.specs.Prelude.{length, slice_index_or, codes};
ghost use Rattle.std.specs.List.{AllByRecursion, flat_map};
ghost use Rattle.serde_json.specs.Data.{Data, null, depth};
ghost use Rattle.serde_json.specs.Find.{get};
ghost use Rattle.serde_json.specs.Read.{max_depth, read};
ghost use Rattle.serde_json.specs.Written.{compact_text};
ghost use Rattle.serde_json.specs.View.{view};
ghost use Rattle.serde_json.specs.declared.value.Value.{Value};
ghost use Rattle.json_trees.specs.Trees.{list_in, AreTexts};
ghost use Rattle.hdf_types.specs.declared.types.ElemType.{ElemType};
ghost use Rattle.hdf_types.specs.Elems.{Elem};
ghost use Rattle.hdf_types.specs.Views.{elem};
ghost use Rattle.hdf_types.specs.Reading.{size_of};
ghost use Rattle.hdf_types.specs.Types.{IsSoundType};
ghost use Rattle.hdf_types.specs.Printed.{type_tree};
ghost use Rattle.shapes.specs.declared.Shape.{Shape};
ghost use Rattle.shapes.specs.declared.printing.Form.{Form};
ghost use Rattle.shapes.specs.Shapes.{LiesIn, count_of, dims_of};
ghost use Rattle.shapes.specs.Printed.{shape_tree};
ghost use Rattle.shapes.specs.RowMajor.{IsInside, cell_count, linear_index};
ghost use Rattle.hdf_values.specs.Elements.{Fits, bytes_of, normal, decoded, encoded, zero_of, IsEncoded};
ghost use Rattle.hdf_values.specs.Nested.{FitsNested, elements, tree_at, nested_bytes, nested_normal};
ghost use Rattle.hdf_values.specs.Nested.{nested_decoded, nested_from, AreEncoded, piece_at, pieces_at};
ghost use Rattle.hdf_values.specs.Nested.{with_pieces};
ghost use Rattle.hdf_values.specs.Lowest.{HasFault, IsLowest, IsFirstFault, IsFaultBehind};
ghost use Rattle.hdf_values.specs.Shaped.{IsValue, value_from, value_tree};
ghost use Rattle.hdf_values.specs.Printed.{keyed};
ghost use Rattle.hdf_values.specs.Attributes.{Content, content, IsAttribute, IsSoundAttribute, attribute_of};
ghost use Rattle.hdf_values.specs.declared.faults.Misfit.{Misfit};
ghost use Rattle.hdf_values.specs.declared.faults.ValueFault.{ValueFault};
ghost use Rattle.hdf_values.specs.declared.attributes.Attribute.{Attribute};
ghost use Rattle.hdf_values.specs.declared.attributes.AttributeFault.{AttributeFault};
ghost use Rattle.hdf_values.specs.declared.TheConstants.{MAX_ATTRIBUTE, MAX_AHEAD};

/// What a value is written as has the size of its type, and reads back as the value without the
/// filling of its texts, which has the same bytes. 0 and the empty text are values.
pub fn values_read_back()
    ensures size { (e : Elem) (d : Data) → IsSoundType e → Fits e d
        → length (bytes_of e d) ≡ size_of e }
    ensures back { (e : Elem) (d : Data) → IsSoundType e → Fits e d
        → decoded e (bytes_of e d) ≡ normal e d }
    ensures again { (e : Elem) (d : Data) → IsSoundType e → Fits e d
        → Fits e (normal e d) × (bytes_of e (normal e d) ≡ bytes_of e d) }
    ensures zero { (e : Elem) → IsSoundType e → Fits e (zero_of e) }
{}

/// A tree whose texts are UTF-8 is a value of a type, or it has a fault, and never both; those of
/// each [`serde_json::Value`] are. Data with another text is no value, and no fault speaks of that.
pub fn value_or_fault()
    ensures value { (e : Elem) (d : Data) → Fits e d → encoded e d ≡ Ok (bytes_of e d) }
    ensures fault { (e : Elem) (d : Data) (m : Misfit) → encoded e d ≡ Err m → Fits e d → ⊥ }
    ensures texts { (e : Elem) (d : Data) (bs : List ℕ) → AreTexts d
        → ((encoded e d ≡ Ok bs) ↔ (Fits e d × (bs ≡ bytes_of e d))) }
    ensures trees { (v : Value) → AreTexts (view v) }
{}

/// Bytes are those of so many elements where they have the length and each piece is an element. So
/// elements behind elements are elements, and so are some of them in a row, and all of them after
/// some were replaced by as many. The value that an element stands for is one, with its bytes.
pub fn encoded_elements()
    ensures each { (e : Elem) (n : ℕ) (bs : List ℕ)
        → (AreEncoded e n bs
        ↔ ((length bs ≡ n * size_of e)
        × ((i : ℕ) → i < n → IsEncoded e (piece_at (size_of e) i bs)))) }
    ensures none { (e : Elem) → AreEncoded e 0 [] }
    ensures one { (e : Elem) (bs : List ℕ) → IsSoundType e → (AreEncoded e 1 bs ↔ IsEncoded e bs) }
    ensures joined { (e : Elem) (m n : ℕ) (xs ys : List ℕ) → AreEncoded e m xs → AreEncoded e n ys
        → AreEncoded e (m + n) (xs ++ ys) }
    ensures gathered { (e : Elem) (f : List ℕ → List ℕ) (ats : List (List ℕ)) → IsSoundType e
        → AllByRecursion (λ at. IsEncoded e (f at)) ats
        → AreEncoded e (length ats) (flat_map f ats) }
    ensures slice { (e : Elem) (n i m : ℕ) (bs : List ℕ) → AreEncoded e n bs → i + m ≤ n
        → AreEncoded e m (pieces_at (size_of e) i m bs) }
    ensures replaced { (e : Elem) (n i : ℕ) (x bs : List ℕ) → IsSoundType e → AreEncoded e n bs
        → IsEncoded e x → i < n → AreEncoded e n (with_pieces (size_of e) i x bs) }
    ensures all_replaced { (e : Elem) (n i m : ℕ) (xs bs : List ℕ) → AreEncoded e n bs
        → AreEncoded e m xs → i + m ≤ n → AreEncoded e n (with_pieces (size_of e) i xs bs) }
    ensures fits { (e : Elem) (bs : List ℕ) → IsSoundType e → IsEncoded e bs
        → Fits e (decoded e bs) × (bytes_of e (decoded e bs) ≡ bs) }
{}

/// The limits, as numbers.
pub fn limits_of_values()
    ensures attribute { MAX_ATTRIBUTE ≡ 65_536 }
    ensures ahead { MAX_AHEAD ≡ 16_777_216 }
{}

/// In a join of lists of one length each piece is one of them, and bytes with these pieces are the
/// join.
pub fn pieces_of_joins<A>()
    ensures joined { (f : A → List ℕ) (xs : List A) (none : A) (k i : ℕ)
        → AllByRecursion (λ x. length (f x) ≡ k) xs → i < length xs
        → piece_at k i (flat_map f xs) ≡ f (slice_index_or xs i none) }
    ensures whole { (f : A → List ℕ) (xs : List A) (none : A) (k : ℕ) (bs : List ℕ)
        → length bs ≡ length xs * k
        → ((i : ℕ) → i < length xs → piece_at k i bs ≡ f (slice_index_or xs i none))
        → bs ≡ flat_map f xs }
{}

/// Where some pieces were replaced, the new ones stand there, and all others as before.
pub fn pieces_replaced()
    ensures inside { (k i m j : ℕ) (xs bs : List ℕ) → length xs ≡ m * k → i * k ≤ length bs
        → j < m → piece_at k (i + j) (with_pieces k i xs bs) ≡ piece_at k j xs }
    ensures outside { (k i m j : ℕ) (xs bs : List ℕ) → length xs ≡ m * k → i * k ≤ length bs
        → (j < i) ⊎ (i + m ≤ j) → piece_at k j (with_pieces k i xs bs) ≡ piece_at k j bs }
    ensures long { (k i : ℕ) (xs bs : List ℕ) → i * k + length xs ≤ length bs
        → length (with_pieces k i xs bs) ≡ length bs }
{}

/// A tree whose texts are UTF-8 is a value of a type and a shape, or it has a first fault, and
/// never both.
pub fn shaped_or_fault()
    ensures value { (e : Elem) (s : Shape) (d : Data) (bs : List ℕ) → IsValue e s d bs
        → value_from e s d ≡ Ok bs }
    ensures fault { (e : Elem) (s : Shape) (d : Data) (bs : List ℕ) (f : ValueFault)
        → value_from e s d ≡ Err f → IsValue e s d bs → ⊥ }
    ensures texts { (e : Elem) (s : Shape) (d : Data) (bs : List ℕ) → AreTexts d
        → ((value_from e s d ≡ Ok bs) ↔ IsValue e s d bs) }
{}

/// A tree whose texts are UTF-8 nests by extents, or it has a first fault, and never both; what it
/// is written as reads back. The element at coordinates, which is found by going down the lists,
/// stands at their linear index (row-major), among the elements and among the bytes.
pub fn nested_or_fault()
    ensures value { (e : Elem) (dims : List ℕ) (p : ℕ) (d : Data) → FitsNested e dims d
        → nested_from e dims p d ≡ Ok (nested_bytes e dims d) }
    ensures fault { (e : Elem) (dims : List ℕ) (p : ℕ) (d : Data) (f : ValueFault)
        → nested_from e dims p d ≡ Err f → FitsNested e dims d → ⊥ }
    ensures texts { (e : Elem) (dims : List ℕ) (p : ℕ) (d : Data) (bs : List ℕ) → AreTexts d
        → ((nested_from e dims p d ≡ Ok bs)
        ↔ (FitsNested e dims d × (bs ≡ nested_bytes e dims d))) }
    ensures back { (e : Elem) (dims : List ℕ) (d : Data) → IsSoundType e → FitsNested e dims d
        → nested_decoded e dims (nested_bytes e dims d) ≡ nested_normal e dims d }
    ensures fits { (e : Elem) (dims bs : List ℕ) → IsSoundType e → AreEncoded e (cell_count dims) bs
        → FitsNested e dims (nested_decoded e dims bs)
        × (nested_bytes e dims (nested_decoded e dims bs) ≡ bs) }
    ensures rows { (e : Elem) (dims coords : List ℕ) (d : Data) → FitsNested e dims d
        → IsInside coords dims
        → tree_at coords d
        ≡ Some (slice_index_or (elements dims d) (linear_index coords dims) null) }
    ensures bytes { (e : Elem) (dims coords : List ℕ) (d : Data) → IsSoundType e
        → FitsNested e dims d → IsInside coords dims
        → (x : Data) × (tree_at coords d ≡ Some x) × Fits e x
        × (piece_at (size_of e) (linear_index coords dims) (nested_bytes e dims d) ≡ bytes_of e x) }
{}

/// The fault that is told of an element is the lowest of all that its parts have, and a value has
/// none.
pub fn lowest_fault_is_told()
    ensures lowest { (e : Elem) (d : Data) (m : Misfit) → ((encoded e d ≡ Err m) ↔ IsLowest e d m) }
    ensures none { (e : Elem) (d : Data) (m : Misfit) → Fits e d → ¬ HasFault e d m }
{}

/// The fault that is told of nested values is the first: that of a list comes before those of its
/// members, and of the members the first that has one decides. It stands at its place, and all
/// elements before it are there without a fault.
pub fn first_fault_is_told()
    ensures first { (e : Elem) (dims : List ℕ) (p : ℕ) (d : Data) (f : ValueFault)
        → ((nested_from e dims p d ≡ Err f) ↔ IsFirstFault e dims p d f) }
    ensures behind { (e : Elem) (dims : List ℕ) (p : ℕ) (d : Data) (f : ValueFault)
        → IsFirstFault e dims p d f → IsFaultBehind e dims p d f }
{}

/// In the tree that bytes stand for the element at coordinates, which is found by going down the
/// lists, is the one that the bytes at its linear index stand for. Over one axis this is a list of
/// the elements in order, and such a list is written as their bytes in order.
pub fn values_in_rows()
    ensures nested { (e : Elem) (dims coords bs : List ℕ) → AreEncoded e (cell_count dims) bs
        → IsInside coords dims
        → tree_at coords (nested_decoded e dims bs)
        ≡ Some (decoded e (piece_at (size_of e) (linear_index coords dims) bs)) }
    ensures shaped { (e : Elem) (s : Shape) (at bs : List ℕ) → AreEncoded e (count_of s) bs
        → LiesIn at s
        → tree_at at (value_tree e s bs)
        ≡ Some (decoded e (piece_at (size_of e) (linear_index at (dims_of s)) bs)) }
    ensures points { (e : Elem) (n : ℕ) (bs : List ℕ)
        → (ds : List Data) × (list_in (nested_decoded e (n ∷ []) bs) ≡ Some ds) × (length ds ≡ n)
        × ((i : ℕ) → i < n
        → slice_index_or ds i null ≡ decoded e (piece_at (size_of e) i bs)) }
    ensures read { (e : Elem) (n i : ℕ) (d : Data) (ds : List Data) → IsSoundType e
        → FitsNested e (n ∷ []) d → list_in d ≡ Some ds → i < n
        → Fits e (slice_index_or ds i null)
        × (piece_at (size_of e) i (nested_bytes e (n ∷ []) d)
        ≡ bytes_of e (slice_index_or ds i null)) }
{}

/// A tree with the printed type, shape and value of an attribute at their keys spells the attribute
/// again, whatever stands at other keys.
pub fn printed_attributes_read_back()
    ensures { (d : Data) (c : Content) (form : Form) → IsSoundAttribute c
        → get (codes "type") d ≡ Some (type_tree c.kind)
        → get (codes "shape") d ≡ Some (shape_tree c.shape form)
        → get (codes "value") d ≡ Some (value_tree c.kind c.shape c.bytes)
        → attribute_of d ≡ Ok c }
{}

/// Types with the same plain data are the same, and so are attributes with the same content.
pub fn contents_tell_apart()
    ensures types { (a b : ElemType) → elem a ≡ elem b → a ≡ b }
    ensures attributes { (a b : Attribute) → content a ≡ content b → a ≡ b }
{}

/// A tree spells one attribute, or it has a first fault, and never both.
pub fn attribute_or_fault()
    ensures one { (d : Data) (a b : Content) → IsAttribute d a → IsAttribute d b → a ≡ b }
    ensures value { (d : Data) (c : Content) → IsAttribute d c → attribute_of d ≡ Ok c }
    ensures fault { (d : Data) (f : AttributeFault) (c : Content) → attribute_of d ≡ Err f
        → IsAttribute d c → ⊥ }
{}

/// What is printed for elements' bytes reads as the tree that they stand for, and so does an object
/// with this tree at its one key, where they nest no deeper than `serde_json` reads.
pub fn texts_read_back()
    ensures nested { (e : Elem) (dims bs : List ℕ) → IsSoundType e → AreEncoded e (cell_count dims) bs
        → depth (nested_decoded e dims bs) ≤ max_depth
        → read (compact_text (nested_decoded e dims bs)) ≡ Some (nested_decoded e dims bs) }
    ensures keyed { (key : List ℕ) (e : Elem) (dims bs : List ℕ) → IsSoundType e
        → AreEncoded e (cell_count dims) bs
        → depth (keyed key (nested_decoded e dims bs)) ≤ max_depth
        → read (compact_text (keyed key (nested_decoded e dims bs)))
        ≡ Some (keyed key (nested_decoded e dims bs)) }
{}
