// Plans of members 100 and 200 with capacity 1, and of none, compiled; tables run on them.
ghost use Rattle.std.specs.Prelude.{◌≤◌};

use crate::desk::{Desk, Row};
use std::io;

// Bytes of a plan of two members and two edges, and of an image.
const PLAN: usize = 120;

const IMAGE: usize = 300;

// Bytes that a host takes for a compiled plan: the first `total`.
#[derive(Clone, Copy)]
pub struct Image {
    bytes: [u8; IMAGE],
    total: usize,
}

// The header of a plan: members, edges, where edges start, and the total.
fn header(n: u32, e: u32, edges: u32, total: u32) -> [u8; PLAN] {
    let mut b = [0u8; PLAN];
    basis::write_u32(&mut b, 0, 1);
    basis::write_u32(&mut b, 4, n);
    basis::write_u32(&mut b, 8, e);
    basis::write_u32(&mut b, 12, 24);
    basis::write_u32(&mut b, 16, edges);
    basis::write_u32(&mut b, 20, total);
    b
}

// A header and the two members' rows.
fn two_members(e: u32, total: u32) -> [u8; PLAN] {
    let mut b = header(2, e, 56, total);
    basis::write_u64(&mut b, 24, 100);
    basis::write_u32(&mut b, 32, 1);
    basis::write_u64(&mut b, 40, 200);
    basis::write_u32(&mut b, 48, 1);
    b
}

// An edge's row.
fn edge(b: &mut [u8; PLAN], at: usize, id: u64, source: u64, target: u64, delay: u64)
    requires { at ≤ 88 }
{
    basis::write_u64(b, at, id);
    basis::write_u64(b, at + 8, source);
    basis::write_u64(b, at + 16, target);
    basis::write_u64(b, at + 24, delay);
}

// The image of the first `given` bytes of a plan.
fn compiled(plan: &[u8; PLAN], given: usize) -> Image
    requires { given ≤ 120 }
{
    let mut bytes = [0u8; IMAGE];
    let total = image::compile(&plan[..given], &mut bytes).unwrap_or(0);
    Image { bytes, total }
}

// Edge 7 from 100 to 200, of a delay; with 10 it is 01's P.
pub fn pair(delay: u64) -> Image {
    let mut b = two_members(1, 88);
    edge(&mut b, 56, 7, 100, 200, delay);
    compiled(&b, 88)
}

// Edge 7 from 100 to 200 with delay 10, and edge 8 back with delay 5.
pub fn ring() -> Image {
    let mut b = two_members(2, 120);
    edge(&mut b, 56, 7, 100, 200, 10);
    edge(&mut b, 88, 8, 200, 100, 5);
    compiled(&b, 120)
}

// No members.
pub fn none() -> Image {
    let b = header(0, 0, 24, 24);
    compiled(&b, 24)
}

impl Image {
    // The image with another byte at a place.
    pub fn damaged(self, at: usize, b: u8) -> Image {
        let mut other = self;
        if at < IMAGE {
            other.bytes[at] = b;
        }
        other
    }

    // The image without its last byte.
    pub fn shorter(self) -> Image {
        Image {
            total: self.total.saturating_sub(1),
            ..self
        }
    }
}

// A title, and a table on an image, which is named first.
pub fn on(rt: &impl Print, title: &str, i: Image, d: &mut Desk, rows: &[Row]) -> io::Result<()> {
    let image = &i.bytes[..i.total.min(IMAGE)];
    print!(rt; "# {title}\nimage ")?;
    for b in image {
        print!(rt; "{b:02x}")?;
    }
    println!(rt; "\n  image {}", image.len())?;
    d.run(rt, image, rows)
}
