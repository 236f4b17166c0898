//! The words that tell what is wrong.

ghost use Rattle.std.specs.Prelude.{◌≡◌};
ghost use Rattle.object_ops.specs.Words.{field_word, shape_word, select_word, value_word};

/// The part of a request that is missing or of the wrong form.
#[derive(Clone, Copy, Debug, PartialEq, Eq)]
pub enum FieldWord {
    /// The id in the path.
    Id,
    /// Whether a folder is made.
    Folder,
    /// An entry of an access list.
    Acl,
    /// A type.
    Type,
    /// The creation properties.
    CreationProperties,
    /// A value.
    Value,
    /// Points.
    Points,
    /// A link.
    Link,
    /// A shape.
    Shape,
}

impl FieldWord {
    /// The word for it in a refusal.
    pub fn word(self) -> &'static str
        ensures { result.now ≡ field_word self }
    {
        match self {
            FieldWord::Id => "id",
            FieldWord::Folder => "folder",
            FieldWord::Acl => "acl",
            FieldWord::Type => "type",
            FieldWord::CreationProperties => "creationProperties",
            FieldWord::Value => "value",
            FieldWord::Points => "points",
            FieldWord::Link => "link",
            FieldWord::Shape => "shape",
        }
    }
}

/// What is wrong with a shape.
#[derive(Clone, Copy, Debug, PartialEq, Eq)]
pub enum ShapeWord {
    /// It is outside the grammar.
    NotAShape,
    /// It has no axis or too many, or more or fewer limits than dims.
    Rank,
    /// A dim is above its limit.
    DimOverMax,
    /// It has too many cells.
    TooLarge,
}

impl ShapeWord {
    /// The word for it in a refusal.
    pub fn word(self) -> &'static str
        ensures { result.now ≡ shape_word self }
    {
        match self {
            ShapeWord::NotAShape => "not-a-shape",
            ShapeWord::Rank => "rank",
            ShapeWord::DimOverMax => "dim-over-max",
            ShapeWord::TooLarge => "too-large",
        }
    }
}

/// What is wrong with a selection, with points or with other dims.
#[derive(Clone, Copy, Debug, PartialEq, Eq)]
pub enum SelectWord {
    /// It is outside the grammar.
    Syntax,
    /// It has more or fewer axes than the shape.
    Rank,
    /// A step is 0.
    Step,
    /// A start is above its stop.
    Order,
    /// A number is past the end of its axis.
    Past,
    /// There would be too many cells.
    TooLarge,
}

impl SelectWord {
    /// The word for it in a refusal.
    pub fn word(self) -> &'static str
        ensures { result.now ≡ select_word self }
    {
        match self {
            SelectWord::Syntax => "syntax",
            SelectWord::Rank => "rank",
            SelectWord::Step => "step",
            SelectWord::Order => "order",
            SelectWord::Past => "past",
            SelectWord::TooLarge => "too-large",
        }
    }
}

/// What is wrong with a value.
#[derive(Clone, Copy, Debug, PartialEq, Eq)]
pub enum ValueWord {
    /// It is of another kind.
    NotOfType,
    /// A number is outside its type's range.
    OutOfRange,
    /// A text has too many bytes.
    TooLong,
    /// A text of the ASCII set has another character.
    NotAscii,
    /// A text has the character U+0000.
    Nul,
    /// A list has another length than its axis.
    WrongCount,
}

impl ValueWord {
    /// The word for it in a refusal.
    pub fn word(self) -> &'static str
        ensures { result.now ≡ value_word self }
    {
        match self {
            ValueWord::NotOfType => "not-of-type",
            ValueWord::OutOfRange => "out-of-range",
            ValueWord::TooLong => "too-long",
            ValueWord::NotAscii => "not-ascii",
            ValueWord::Nul => "nul",
            ValueWord::WrongCount => "wrong-count",
        }
    }
}
