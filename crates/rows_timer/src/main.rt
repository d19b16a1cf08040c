//! Applies one operation of rows to two sets of 4,096 bits, as often as its words say. Prints how
//! many bits are left, or how often the first was within the second. `bench/measure.py kernels`
//! measures its time.
#![tactic(auto)]

use sh_rows::{meet_words, remove_words, within_words};
use std::rt::Env;
use std::{env, io};

const WORDS: usize = 64;

/// What is done over and over.
#[derive(Clone, Copy)]
enum Operation {
    Meet,
    Remove,
    Within,
}

fn operation_of(word: &str) -> Option<Operation> {
    match word {
        "meet" => Some(Operation::Meet),
        "remove" => Some(Operation::Remove),
        "within" => Some(Operation::Within),
        _ => None,
    }
}

// The bits that are left. In each round one word is set anew.
fn left_after(operation: Operation, rounds: u32) -> u32 {
    let other = [0x5555_5555_5555_5555u64; WORDS];
    let mut words = other;
    let mut within = 0u32;
    for round in 0..rounds {
        let at = round as usize % WORDS;
        words[at] = other[at] >> (round % 2 * 2);
        match operation {
            Operation::Meet => meet_words(&mut words, &other),
            Operation::Remove => remove_words(&mut words, &other),
            Operation::Within => within = within.wrapping_add(u32::from(within_words(
                &words, &other,
            ))),
        }
    }
    words
        .iter()
        .fold(within, |sum, word| sum.wrapping_add(word.count_ones()))
}

fn words_of(rt: &(impl Env + AllocGlobal)) -> io::Result<Vec<String>> {
    env::args(rt)?.collect(rt.alloc()).map_err(io::Error::from)
}

// The operation and how often, by the words.
fn asked(words: &[String]) -> Option<(Operation, u32)> {
    let operation = operation_of(words.get(1)?.as_str())?;
    let rounds = words.get(2)?.as_str().parse::<u32>().ok()?;
    Some((operation, rounds))
}

fn main(rt: HostRuntime) -> io::Result<()> {
    let words = words_of(&rt)?;
    match asked(words.as_slice()) {
        Some((operation, rounds)) => println!(rt; "{}", left_after(operation, rounds)),
        None => println!(rt; "rows_timer meet|remove|within ROUNDS"),
    }
}
