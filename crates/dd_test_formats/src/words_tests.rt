use dd_words::{Command, WordsFault, read_words};
use std::alloc::Global;
use std::process::Abort;
use std::rc::RcStr;

fn words_of<R: Abort>(rt: &R, alloc: Global, texts: &[&str]) -> Vec<RcStr> {
    let mut words = Vec::new(alloc);
    for text in texts {
        let word = RcStr::from_str(alloc, text).expect(rt, "a word");
        words.push(word).expect(rt, "room for a word");
    }
    words
}

fn read<R: Abort>(rt: &R, alloc: Global, texts: &[&str]) -> Result<Command, WordsFault> {
    read_words(alloc, &words_of(rt, alloc, texts))
}

/// An empty name, which no row of a command line can give.
#[test]
fn an_empty_name_is_not_taken(rt: HostRuntime) {
    let told = read(&rt, rt.alloc(), &["canon", ""]);
    assert!(rt; matches!(told, Err(WordsFault::NotTaken)));
}

/// A catalogue that takes days to write.
#[test]
fn the_largest_catalogue_is_taken(rt: HostRuntime) {
    let pace = match read(&rt, rt.alloc(), &["catalogue", "36"]) {
        Ok(
            Command::Catalogue {
                pace,
                pause: None,
                ..
            },
        ) => Some(pace),
        _ => None,
    };
    let pace = pace.expect(&rt, "a catalogue that does not pause");
    assert_eq!(rt; (pace.workers(), pace.round()), (1, 64));
}
