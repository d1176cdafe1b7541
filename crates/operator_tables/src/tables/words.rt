use crate::tables::{misfit, said};
use crate::trouble::Trouble;
use op_base::{NoMemory, Text};
use op_words::{Part, Reading, WordsFault, read_words};
use std::alloc::Global;

/// Of words with a blank between them: what they ask for.
pub fn found(alloc: Global, given: &[Text]) -> Result<Text, Trouble> {
    match given {
        [line] => Ok(asked(alloc, line.as_str())?),
        _ => misfit(),
    }
}

fn asked(alloc: Global, line: &str) -> Result<Text, NoMemory> {
    let words = words_of(alloc, line)?;
    match read_words(alloc, words.as_slice()) {
        Ok(reading) => reading_said(alloc, &reading),
        Err(WordsFault::Usage) => said(alloc, "!Usage", ""),
        Err(WordsFault::NoMemory) => Err(NoMemory),
    }
}

// Two blanks have an empty word between them, and an empty line has no word.
fn words_of(alloc: Global, line: &str) -> Result<Vec<String>, NoMemory> {
    let mut words = Vec::new(alloc);
    if line.is_empty() {
        return Ok(words);
    }
    for word in line.split(' ') {
        words.push(String::from_str(alloc, word)?)?;
    }
    Ok(words)
}

// The command and its folder, and then what else is asked for.
fn reading_said(alloc: Global, reading: &Reading) -> Result<Text, NoMemory> {
    match reading {
        Reading::Compile { dir, part } => with_dir(alloc, "compile ", dir, part_said(*part), ""),
        Reading::Apply { dir, part, each } => {
            with_dir(alloc, "apply ", dir, part_said(*part), each_said(*each))
        }
        Reading::Run { dir } => with_dir(alloc, "run ", dir, "", ""),
    }
}

fn with_dir(
    alloc: Global,
    command: &str,
    dir: &Text,
    part: &str,
    each: &str,
) -> Result<Text, NoMemory> {
    let mut text = said(alloc, command, dir.as_str())?;
    text.push_str(part)?;
    text.push_str(each)?;
    Ok(text)
}

fn part_said(part: Option<Part>) -> &'static str {
    match part {
        Some(Part::Alertmanager) => ", alertmanager",
        Some(Part::Prometheus) => ", prometheus",
        Some(Part::Rules) => ", rules",
        None => "",
    }
}

fn each_said(each: bool) -> &'static str {
    if each { ", each" } else { "" }
}
