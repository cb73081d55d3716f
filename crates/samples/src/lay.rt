// A plan's card: what is used is laid over noise (G7).
use crate::entries::{Entry, Style};
use crate::image::{Field, Image};
use crate::owners::{Desc, Stream};
use crate::parts::{FIRST_FREE, FIRST_OFFSET, NO_BLOCK, NO_OFFSET, Part, SHIFT};
use crate::plan::{Plan, offset};
use crate::sizes::ROWS;

// The header's fixed bytes, and where they stand.
const FIXED: [(u32, &[u8]); 6] = [
    (0, b"YAK1\x01\x57\x00\x07\x00memory\x01\x12\x00blocks\x01"),
    (26, b"\x04"),
    (35, b"\x00"),
    (36, b"\x20\x00stream\x01"),
    (70, b"\x0f\x00filing\x01"),
    (79, b"\x00\x00\x00\x00\x00\x00\x00\x00"),
];

// The header but for the table's descriptor.
fn lay_header(image: &mut Image, chain: &[u16]) -> Option<()> {
    for (at, bytes) in FIXED {
        image.put_bytes(at, bytes)?;
    }
    let shift = image.block.shift;
    image.put(SHIFT, u64::from(shift))?;
    image.put(
        FIRST_FREE,
        chain.first().map_or(NO_OFFSET, |b| u64::from(*b)),
    )
}

// The slots of a pyramid: those that name the blocks of a row stand in the row above.
fn lay_pyramid(image: &mut Image, stream: &Stream) -> Option<()> {
    for t in 0..ROWS - 1 {
        let row = stream.row(t)?;
        if row.len() <= 1 {
            return Some(());
        }
        for (j, &block) in row.iter().enumerate() {
            image.put(image.slot(stream, t, j)?, u64::from(block))?;
        }
    }
    Some(())
}

// A descriptor whose flags are 0.
fn lay_desc(
    image: &mut Image,
    table: &Stream,
    desc: Desc,
    size: u64,
    top: u64,
    reserved: u64,
) -> Option<()> {
    image.put_desc(table, desc, size, top, reserved)?;
    image.put_part(table, desc, Part::Flags, 0)
}

// A stream's pyramid and its descriptor.
fn lay_stream(image: &mut Image, table: &Stream, stream: &Stream) -> Option<()> {
    lay_pyramid(image, stream)?;
    let reserved = stream.reserved(image.block);
    lay_desc(
        image,
        table,
        stream.desc,
        u64::from(stream.size),
        u64::from(stream.top()),
        u64::from(reserved),
    )
}

// All streams, the table and the root among them.
fn lay_streams(image: &mut Image, plan: &Plan) -> Option<()> {
    let table = &plan.streams.table;
    lay_stream(image, table, table)?;
    lay_stream(image, table, &plan.streams.root)?;
    for stream in &plan.streams.named {
        lay_stream(image, table, stream)?;
    }
    Some(())
}

// The free descriptors, from the last one on, and the table's first bytes.
fn lay_spares(image: &mut Image, plan: &Plan) -> Option<()> {
    let table = &plan.streams.table;
    let mut next = NO_OFFSET;
    for &k in plan.spares.iter().rev() {
        lay_desc(image, table, Desc::Table(k), next, NO_OFFSET, 0)?;
        next = u64::from(offset(k));
    }
    image.put_in(table, FIRST_OFFSET, next)
}

// A byte of a name, which is no '/'.
fn lay_letter(image: &mut Image, root: &Stream, style: Style, at: u32) -> Option<()> {
    match style {
        Style::Letter => image.put_byte_in(root, at, b'a'),
        Style::Noise if image.byte_in(root, at)? == b'/' => image.put_byte_in(root, at, b'.'),
        Style::Noise => Some(()),
    }
}

// The name of entry `e`, with the mark that makes it differ from all others, and is no '/'.
fn lay_name(image: &mut Image, root: &Stream, style: Style, entry: Entry, e: usize) -> Option<()> {
    for p in 0..entry.length {
        lay_letter(image, root, style, entry.name_place(p)?)?;
    }
    let Some(last) = entry.length.checked_sub(1) else {
        return Some(());
    };
    let mark = if e < usize::from(b'/') {
        e
    } else {
        e.checked_add(1)?
    };
    let place = match style {
        Style::Noise => 0,
        Style::Letter => last,
    };
    image.put_byte_in(root, entry.name_place(place)?, u8::try_from(mark).ok()?)
}

// The root's entries.
fn lay_root(image: &mut Image, plan: &Plan) -> Option<()> {
    let root = &plan.streams.root;
    for (e, &entry) in plan.entries.get(..plan.listed)?.iter().enumerate() {
        image.put_in(root, entry.index_field(), u64::from(entry.index))?;
        image.put_in(root, entry.length_field()?, u64::from(entry.length))?;
        lay_name(image, root, plan.style, entry, e)?;
    }
    Some(())
}

// The links of the free chain, from the last one on.
fn lay_chain(image: &mut Image, chain: &[u16]) -> Option<()> {
    let mut next = NO_BLOCK;
    for &block in chain.iter().rev() {
        image.put_link(block, next)?;
        next = u64::from(block);
    }
    Some(())
}

// The plan's card over noise.
pub fn lay(image: &mut Image, plan: &Plan, chain: &[u16]) -> Option<()> {
    lay_header(image, chain)?;
    lay_streams(image, plan)?;
    lay_spares(image, plan)?;
    lay_root(image, plan)?;
    lay_chain(image, chain)
}
