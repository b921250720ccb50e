// The type of a slot, read in bytes that end with its record.
ghost use Rattle.std.specs.Prelude.{◌≡◌, ◌≤◌, length};
ghost use Rattle.format.specs.Types.{type_at, items_at, whole_type};
ghost use Rattle.format.specs.Answers.{typed_of, items_of, tag_number, Tagged};

// What a type begins with.
#[derive(Clone, Copy, PartialEq, Eq, Debug)]
pub enum Tag {
    Absent = 0,
    Other = 1,
    Host = 2,
    Reference = 3,
    Tuple = 4,
}

// A byte that no type begins with.
#[derive(Clone, Copy, PartialEq, Eq, Debug)]
pub struct NoType(pub u8);

// A type that was read: where it ends, and whether `inline_host` of flow.rs accepts it.
#[derive(Clone, Copy, PartialEq, Eq, Debug)]
pub struct Typed {
    pub end: usize,
    pub host: bool,
}

// How many tuples deep a type may be.
pub const DEPTH: usize = 16;

impl TryFrom<u8> for Tag {
    type Error = NoType;

    ghost try_from_gives = { Tagged };

    fn try_from(byte: u8) -> Result<Tag, NoType> {
        match byte {
            0 => Ok(Tag::Absent),
            1 => Ok(Tag::Other),
            2 => Ok(Tag::Host),
            3 => Ok(Tag::Reference),
            4 => Ok(Tag::Tuple),
            _ => Err(NoType(byte)),
        }
    }
}

// The type at an offset, at most depth tuples deep.
#[cycle(read_items_read_type)]
#[tactic(auto, using(crate::proofs::TypeLaws::type_ended, crate::proofs::TypeLaws::leaf_type, crate::proofs::TypeLaws::type_deep, crate::proofs::TypeLaws::type_cut, crate::proofs::TypeLaws::type_tuple), unfolding(crate::specs::Types::leaf))]
pub fn read_type(s: &[u8], at: usize, depth: usize) -> Option<Typed>
    requires { depth ≤ 16 }
    ensures { result ≡ typed_of (type_at depth s.now (length s.now) at) }
{
    let first = *s.get(at)?;
    match Tag::try_from(first).ok()? {
        Tag::Absent => None,
        Tag::Other => Some(Typed {
            end: at + 1,
            host: false,
        }),
        Tag::Host | Tag::Reference => Some(Typed {
            end: at + 1,
            host: true,
        }),
        Tag::Tuple => {
            if depth == 0 {
                return None;
            }
            let count = *s.get(at + 1)?;
            read_items(s, count, at + 2, depth - 1)
        }
    }
}

// So many types, one after the other: where the last one ends, and whether `inline_host` accepts one of them.
#[cycle(read_items_read_type)]
#[tactic(auto, using(crate::proofs::TypeLaws::items_more, crate::proofs::TypeLaws::items_stop, crate::proofs::TypeLaws::items_end))]
pub fn read_items(s: &[u8], count: u8, at: usize, depth: usize) -> Option<Typed>
    requires { depth ≤ 16 }
    ensures { result ≡ items_of (items_at (λ a. type_at depth s.now (length s.now) a) count at) }
{
    let mut end = at;
    let mut host = false;
    for _ in 0..count {
        let item = read_type(s, end, depth)?;
        end = item.end;
        host |= item.host;
    }
    Some(Typed { end, host })
}

// A whole type: absent, or a type at most 16 tuples deep.
#[tactic(auto, using(crate::proofs::TypeLaws::whole_absent, crate::proofs::TypeLaws::whole_deep))]
pub fn whole_type(s: &[u8], at: usize) -> Option<Typed>
    ensures { result ≡ typed_of (whole_type s.now (length s.now) at) }
{
    if s.get(at) == Some(&(Tag::Absent as u8)) {
        return Some(Typed {
            end: at + 1,
            host: false,
        });
    }
    read_type(s, at, DEPTH)
}
