//! Copies a word out of a text before the text's bytes are overwritten.
#![tactic(auto)]

use lexer::lines::Lines;
use lexer::words::{Word, Words};
use std::alloc::Global;

/// The word after the letter of the text's first line.
fn first_word(text: &[u8]) -> Option<Word> {
    let line = Lines::try_from(text).ok()?.next()?;
    let mut words = Words::try_from(line).ok()?;
    words.letter()?;
    words.next()
}

/// The first number of the text, in memory of its own; the text is then overwritten.
fn take_number(alloc: Global, text: &mut [u8]) -> anyhow::Result<Option<Vec<u8>>> {
    let Some(word) = first_word(text) else {
        return Ok(None);
    };
    let kept = word.copied(alloc)?;
    text.fill(b'#');
    Ok(Some(kept))
}

fn main(rt: HostRuntime) -> anyhow::Result<()> {
    let mut text = *b"s 2 6\n";
    if let Some(kept) = take_number(rt.alloc(), &mut text)? {
        println!(rt; "kept {kept:?} of a text that is now {text:?}")?;
    }
    Ok(())
}
