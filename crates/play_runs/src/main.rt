// Plays inputs of every kind, each from a file of its name, and some again as bytes at hand.
#![tactic(auto)]

use std::rt::Files;
use std::{fs, io};

// A file that cannot be opened is played as one with nothing in it.
fn play_file<R: Files + Print>(rt: &R, name: &str) -> io::Result<()> {
    println!(rt; "{name}")?;
    match fs::open(rt, name) {
        Ok(mut from) => console::play(&mut from, &mut io::writer(rt)),
        Err(_) => console::play(&mut io::empty(), &mut io::writer(rt)),
    }
}

fn play_again<R: Files + Print>(rt: &R, name: &str) -> io::Result<()> {
    println!(rt; "{name} held")?;
    let mut input = [0u8; 65536];
    let count = match fs::open(rt, name) {
        Ok(mut from) => console::read_full(&mut from, &mut input)?,
        Err(_) => 0,
    };
    console::play_held(&mut io::writer(rt), &input[..count])
}

// What is played.
fn play_played<R: Files + Print>(rt: &R) -> io::Result<()> {
    for name in [
        "ondemand_integrator",
        "ondemand_cable",
        "no_inputs",
        "no_outputs",
        "wide",
        "controls",
        "control_after_256",
        "spaces",
        "last_line_open",
        "last_control_open",
        "no_samples",
        "many_lines",
        "longest_lines",
    ] {
        play_file(rt, name)?;
    }
    Ok(())
}

// What ends with a malformed line.
fn play_malformed<R: Files + Print>(rt: &R) -> io::Result<()> {
    for name in [
        "too_few",
        "too_many",
        "no_number",
        "plus",
        "leading_zero",
        "minus_zero",
        "above_32_bits",
        "below_32_bits",
        "tab",
        "carriage_return",
        "slot_16",
        "slot_negative",
        "control_short",
        "control_long",
        "control_capital",
        "control_no_number",
        "empty_line",
        "number_without_inputs",
        "line_too_long",
        "malformed_open",
        "malformed_after_256",
    ] {
        play_file(rt, name)?;
    }
    Ok(())
}

// What is refused, or has no samples.
fn play_refused<R: Files + Print>(rt: &R) -> io::Result<()> {
    for name in [
        "refused_kind",
        "refused_line",
        "refused_number",
        "no_empty_line",
        "line_feed_missing",
        "nothing",
        "empty_line_first",
        "lines_512",
        "lines_512_and_a_byte",
        "lines_512_and_more",
    ] {
        play_file(rt, name)?;
    }
    Ok(())
}

fn main(rt: HostRuntime) -> io::Result<()> {
    play_played(&rt)?;
    play_malformed(&rt)?;
    play_refused(&rt)?;
    for name in [
        "ondemand_integrator",
        "controls",
        "last_line_open",
        "too_many",
        "nothing",
        "lines_512",
    ] {
        play_again(&rt, name)?;
    }
    Ok(())
}
