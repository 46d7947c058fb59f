//! The texts of members in two words, some of which stand below the first name; room for more.
use md_blocks::{Compared, Target, make_room, put_two, write_members};
use md_graph::Set;
use md_text::{CHUNK_SIZE, Chunk, digits_piece, number_piece, piece_behind};
use std::test::Fail;

// Gathers the texts of the members from the second on before a target.
fn put_members<E, T: Target<E>>(chunk: &mut Chunk, target: &mut T) -> Result<(), E> {
    let set: Set<2> = Set::from_list(&[2, 3, 5, 7, 11, 13, 63, 64, 127]);
    let _members = set.members();
    let mut pieces = [digits_piece(0); 128];
    pieces[5] = digits_piece(55);
    pieces[63] = digits_piece(12345);
    pieces[127] = digits_piece(9);
    let start = piece_behind(b'-', digits_piece(4));
    write_members(&set, 3, start, &pieces, chunk, target)?;
    target.take_chunk(chunk)
}

#[test]
fn writes_members(rt: HostRuntime) -> Result<(), Fail> {
    let mut text = Vec::new(rt.alloc());
    let mut chunk = Chunk::new();
    assert!(&rt; put_members(&mut chunk, &mut text).is_ok());
    assert_eq!(&rt;
        text.as_slice(),
        b"-40-455-40-40-40-412345-40-49".as_slice()
    );
    Ok(())
}

// A chunk goes to its target when there is no room for more, and not before.
#[test]
fn makes_room(rt: HostRuntime) -> Result<(), Fail> {
    let mut text = Vec::new(rt.alloc());
    text.push(b'+')?;
    let mut chunk = Chunk::new();
    let line = number_piece(99_999, b'\n');
    put_two(
        &mut text,
        piece_behind(b'e', digits_piece(7)),
        line,
        &mut chunk,
    )?;
    make_room(CHUNK_SIZE - 8, &mut chunk, &mut text)?;
    assert_eq!(&rt; text.as_slice(), b"+".as_slice());
    make_room(CHUNK_SIZE, &mut chunk, &mut text)?;
    assert_eq!(&rt; text.as_slice(), b"+e799999\n".as_slice());
    assert_eq!(&rt; chunk.room(), CHUNK_SIZE);
    Ok(())
}

#[test]
fn compares_members(rt: HostRuntime) -> Result<(), Fail> {
    let mut chunk = Chunk::new();
    let mut same = Compared::new(b"-40-455-40-40-40-412345-40-49,");
    assert!(&rt; put_members(&mut chunk, &mut same).is_ok());
    assert_eq!(&rt; same.same, 29);
    let mut chunk = Chunk::new();
    let mut other = Compared::new(b"-40-455-40-40-40-412345-40-48");
    assert!(&rt; put_members(&mut chunk, &mut other).is_err());
    Ok(())
}
