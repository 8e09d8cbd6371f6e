// The fifteen kinds of rows.
ghost use Rattle.std.specs.Prelude.{◌≡◌};
ghost use Rattle.std.specs.Option.{ok_or};
ghost use Rattle.types.specs.Choices.{beside};
ghost use Rattle.schemas.specs.Kinds.{kinds};

use std::error::Error;
use std::fmt;
use types::kinds;

#[derive(Clone, Copy, Debug, PartialEq, Eq, Hash)]
pub enum Kind {
    Null,
    Bool,
    Fixed,
    Binary,
    LargeBinary,
    View,
    List,
    LargeList,
    ListView,
    LargeListView,
    FixedSizeList,
    Struct,
    Dictionary,
    SparseUnion,
    DenseUnion,
}

// A number that no kind has.
#[derive(Clone, Copy, Debug, PartialEq, Eq, Hash)]
pub struct NoKind(pub u8);

// The numbers are those of `types`, on which this crate stands; a derive makes no kind of a number.
impl TryFrom<u8> for Kind {
    type Error = NoKind;

    ghost try_from_gives = { λ number r. r ≡ ok_or (beside kinds number) (record { 0 = number }) };

    fn try_from(number: u8) -> Result<Kind, NoKind> {
        match number {
            kinds::NULL => Ok(Kind::Null),
            kinds::BOOL => Ok(Kind::Bool),
            kinds::FIXED => Ok(Kind::Fixed),
            kinds::BINARY => Ok(Kind::Binary),
            kinds::LARGE_BINARY => Ok(Kind::LargeBinary),
            kinds::VIEW => Ok(Kind::View),
            kinds::LIST => Ok(Kind::List),
            kinds::LARGE_LIST => Ok(Kind::LargeList),
            kinds::LIST_VIEW => Ok(Kind::ListView),
            kinds::LARGE_LIST_VIEW => Ok(Kind::LargeListView),
            kinds::FIXED_SIZE_LIST => Ok(Kind::FixedSizeList),
            kinds::STRUCT => Ok(Kind::Struct),
            kinds::DICTIONARY => Ok(Kind::Dictionary),
            kinds::SPARSE_UNION => Ok(Kind::SparseUnion),
            kinds::DENSE_UNION => Ok(Kind::DenseUnion),
            _ => Err(NoKind(number)),
        }
    }
}

impl fmt::Display for NoKind {
    fn fmt<W: fmt::Write>(&self, f: &mut fmt::Formatter<W>) -> fmt::Result {
        write!(f, "no kind of row has the number {}", self.0)
    }
}

impl Error for NoKind {}
