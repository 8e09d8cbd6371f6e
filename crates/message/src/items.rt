// Nodes and buffers: signed numbers of 8 bytes, one after the other.
ghost use Rattle.std.specs.Prelude.{◌≡◌, ◌+◌, ◌≤◌, length};
ghost use Rattle.std.proofs.Common.{rules};
ghost use Rattle.little.specs.Numbers.{inside, inside_whole, inside_cut};
ghost use Rattle.message.specs.Items.{node_at, buffer_at};

use little::{Little, bytes_at};

/// The length of a column and how many of its slots are absent.
#[derive(Clone, Copy, Debug, Default, PartialEq, Eq, Hash)]
pub struct Node {
    pub length: i64,
    pub nulls: i64,
}

/// Where a buffer lies in the body.
#[derive(Clone, Copy, Debug, Default, PartialEq, Eq, Hash)]
pub struct Buffer {
    pub offset: i64,
    pub length: i64,
}

// A number of an item, by its place there.
pub(crate) fn field<T: Little>(item: &[u8], at: usize) -> T
    requires { at + T.WIDTH ≤ length item.now }
    ensures { result ≡ T.number item.now at }
{
    T::read_at(item, at).unwrap()
}

impl Node {
    fn from_bytes(bytes: [u8; 16]) -> Node
        ensures { result ≡ node_at bytes 0 }
    {
        Node {
            length: field(&bytes, 0),
            nulls: field(&bytes, 8),
        }
    }
}

// Written out, as the impls of numbers are, and as that of `Row`.
impl Little for Node {
    const WIDTH: usize = 16;

    ghost WIDTH = { 16 };

    ghost number = { node_at };

    ghost number_at = { λ bs at. inside 16 bs at (node_at bs at) };

    ghost positive = { Prim.search rules };

    ghost whole = { λ bs at. inside_whole 16 bs at (node_at bs at) };

    ghost cut = { λ bs at. inside_cut 16 bs at (node_at bs at) };

    fn read_at(bytes: &[u8], at: usize) -> Option<Node> {
        bytes_at(bytes, at).map(Node::from_bytes)
    }
}

impl Buffer {
    fn from_bytes(bytes: [u8; 16]) -> Buffer
        ensures { result ≡ buffer_at bytes 0 }
    {
        Buffer {
            offset: field(&bytes, 0),
            length: field(&bytes, 8),
        }
    }
}

impl Little for Buffer {
    const WIDTH: usize = 16;

    ghost WIDTH = { 16 };

    ghost number = { buffer_at };

    ghost number_at = { λ bs at. inside 16 bs at (buffer_at bs at) };

    ghost positive = { Prim.search rules };

    ghost whole = { λ bs at. inside_whole 16 bs at (buffer_at bs at) };

    ghost cut = { λ bs at. inside_cut 16 bs at (buffer_at bs at) };

    fn read_at(bytes: &[u8], at: usize) -> Option<Buffer> {
        bytes_at(bytes, at).map(Buffer::from_bytes)
    }
}
