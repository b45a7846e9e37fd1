// A step between two configurations, as a record of 6 bytes.
ghost use Rattle.std.specs.Prelude.{◌≡◌, ◌+◌, ◌≤◌, length};
ghost use Rattle.table.specs.Region.{splice};
ghost use Rattle.intersect_edges.specs.Edges.{edge_bytes, edge_at};

use search_rows::Reached;
use table::bytes::{get16, put16};

// The numbers of its configurations, and of the arc of the input table that it follows.
#[derive(Clone, Copy)]
pub struct EdgeRecord {
    pub from: Reached,
    pub arc: u16,
    pub to: Reached,
}

// The record of an edge, written at a place.
pub fn store_edge(work: &mut [u8], at: usize, e: EdgeRecord)
    requires { at + 6 ≤ length work.old }
    ensures { work.new ≡ splice at (edge_bytes e) work.old }
{
    put16(work, at, e.from.0);
    put16(work, at + 2, e.arc);
    put16(work, at + 4, e.to.0);
}

// The edge whose record stands at a place.
pub fn load_edge(work: &[u8], at: usize) -> EdgeRecord
    requires { at + 6 ≤ length work.now }
    ensures { result ≡ edge_at at work.now }
{
    EdgeRecord {
        from: Reached(get16(work, at)),
        arc: get16(work, at + 2),
        to: Reached(get16(work, at + 4)),
    }
}
