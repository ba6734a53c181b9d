//! Marked values: what is moved whole, and what a field moves.

use guest_arithmetic::{Cause, Four, Values};
use job_meaning::{Block, MarkedValues, Token, Word};

/// A word that was stored and loaded again.
fn stored_and_loaded<V: Values>(word: V::Word) -> V::Word {
    let low = Four {
        first: V::byte_of(word, 0),
        second: V::byte_of(word, 1),
        third: V::byte_of(word, 2),
        fourth: V::byte_of(word, 3),
    };
    let high = Four {
        first: V::byte_of(word, 4),
        second: V::byte_of(word, 5),
        third: V::byte_of(word, 6),
        fourth: V::byte_of(word, 7),
    };
    V::joined_quad(low, high)
}

/// The base of instance 2.
fn base() -> Word {
    Word::Marked(Token::Base(Block {
        thread: 1,
        instance: 2,
        start: 0x7000,
    }))
}

#[test]
fn words_are_carried_whole(rt: HostRuntime) {
    for word in [base(), Word::Number(0x1234), Word::Undefined] {
        assert!(rt; stored_and_loaded::<MarkedValues>(word) == word);
    }
}

#[test]
fn a_field_moves_a_base_of_its_own_instance(rt: HostRuntime) {
    // the code of instance 2 begins at 2^32 + 2 * 2^26
    for (word, field, moved) in [
        (base(), 0x1_0800_0000, Ok(0x7010)),
        (base(), 0x40_0000, Err(Cause::Field)),
        (Word::Number(0x7000), 0x1_0800_0000, Err(Cause::Field)),
    ] {
        assert!(rt; MarkedValues::moved(word, 0x10, field) == moved);
    }
    assert!(rt; MarkedValues::number_of(base()) == Err(Cause::Base));
}
