use crate::fixtures::written;
use dd_model::{Allowed, Request};
use dd_plain::plain_catalogue;
use dd_symbol::Connected;
use dd_text::put_lines;
use std::alloc::Global;
use std::process::Abort;
use std::sync::Wait;
use std::thread::Threads;

/// A limit on the classes of tiles or of vertices, where 0 sets none, and its word.
type ClassLimit = (u32, &'static str);

const TILES: [ClassLimit; 4] = [
    (0, ""),
    (1, "--tiles=1"),
    (2, "--tiles=2"),
    (3, "--tiles=3"),
];

const VERTICES: [ClassLimit; 4] = [
    (0, ""),
    (1, "--vertices=1"),
    (2, "--vertices=2"),
    (3, "--vertices=3"),
];

/// Both values of the filter for minimal symbols, and the word for each.
const MINIMAL: [(bool, &str); 2] = [(false, ""), (true, "--minimal")];

/// Returns whether the program writes this text with these words and no empty one.
fn writes<R: Threads + Wait + Sync + Abort>(
    rt: &R,
    alloc: Global,
    words: &[&str],
    text: &[u8],
) -> bool {
    let mut given = Vec::new(alloc);
    for word in words {
        if !word.is_empty() {
            given.push(*word).expect(rt, "room for a word");
        }
    }
    let out = written(rt, alloc, &given);
    out.held() == text
}

fn lines_of<R: Abort>(rt: &R, alloc: Global, members: &[Connected]) -> Vec<u8> {
    let mut text = Vec::new(alloc);
    put_lines(&mut text, 0, members).expect(rt, "lines");
    text
}

/// The lines of the symbols of three chambers with limits, found by the plain filter.
fn filtered<R: Abort>(rt: &R, alloc: Global, tiles: u32, vertices: u32, minimal: bool) -> Vec<u8> {
    let request = Request {
        chambers: 3,
        tiles,
        vertices,
        faces: Allowed::least(3),
        degrees: Allowed::least(3),
        minimal,
    };
    assert!(rt; request.is_valid());
    let members = plain_catalogue(alloc, &request).expect(rt, "members");
    lines_of(rt, alloc, &members)
}

// With any limits the search finds the symbols of three chambers that a plain filter over
// everything finds.
#[test]
fn limits(rt: HostRuntime) {
    for (tiles, tiles_word) in &TILES {
        for (vertices, vertices_word) in &VERTICES {
            for (minimal, minimal_word) in &MINIMAL {
                let words = ["catalogue", *tiles_word, "3", *vertices_word, *minimal_word];
                let text = filtered(&rt, rt.alloc(), *tiles, *vertices, *minimal);
                assert!(rt; writes(&rt, rt.alloc(), &words, &text), "{words:?}");
            }
        }
    }
}
