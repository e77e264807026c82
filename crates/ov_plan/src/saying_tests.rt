use crate::saying::{About, said};
use ov_base::Memory;
use std::alloc::Global;
use std::process::Abort;

/// What these words ask the program to say.
fn asked(alloc: Global, texts: &[&str]) -> Result<Option<About>, Memory> {
    let mut words = Vec::new(alloc);
    for text in texts {
        words.push(String::from_str(alloc, *text)?)?;
    }
    Ok(said(words.as_slice()))
}

/// These words ask for this text, or for none.
fn asks(rt: &impl Abort, alloc: Global, texts: &[&str], wanted: Option<About>) {
    let Ok(about) = asked(alloc, texts) else {
        panic!(rt; "no memory");
    };
    assert_eq!(rt; about, wanted, "{texts:?}");
}

/// A word asks for nothing, neither alone nor beside one that asks for a text.
fn asks_for_nothing(rt: &impl Abort, alloc: Global, word: &str) {
    asks(rt, alloc, &[word], None);
    asks(rt, alloc, &[word, "--help"], None);
    asks(rt, alloc, &["--version", word], None);
}

#[test]
fn three_words_ask_for_a_text_each_alone(rt: HostRuntime) {
    asks(&rt, rt.alloc(), &["--help"], Some(About::Help));
    asks(&rt, rt.alloc(), &["-h"], Some(About::Help));
    asks(&rt, rt.alloc(), &["--version"], Some(About::Version));
    asks(&rt, rt.alloc(), &[], None);
    for word in [
        "", "help", "-help", "--hel", "--help=", "-H", "-V", "version", "trace", "make",
    ] {
        asks_for_nothing(&rt, rt.alloc(), word);
    }
}

/// The help has this text.
fn says(rt: &impl Abort, text: &str) {
    assert!(rt; About::Help.text().contains(text), "{text}");
}

/// The help names an option, and says its range and its default.
fn names(rt: &impl Abort, option: &str, range: &str) {
    says(rt, option);
    says(rt, range);
}

/// The help names each option.
fn names_all(rt: &impl Abort) {
    names(rt, "--lanes", "1 to 64 (4)");
    names(rt, "--head", "0 to 262144 (0)");
    names(rt, "--first-id", "1 to 4294967295 (1)");
    names(rt, "--schedule", "0 to 63, joined by commas (none)");
    names(rt, "--seed", "0 to 4294967295 (1)");
    names(rt, "--count", "1 to 100000 (1000)");
    names(rt, "--turns", "1 to 4294967295 (1000)");
    names(rt, "--port", "1 to 65344 (1194)");
}

/// A line of the help fits a terminal.
fn fits(rt: &impl Abort, line: &str) {
    assert!(rt; line.is_ascii() && line.len() <= 80, "{line}");
}

#[test]
fn the_help_fits_80_columns_and_names_all(rt: HostRuntime) {
    let help = About::Help.text();
    assert!(rt; help.ends_with('\n'));
    for line in help.lines() {
        fits(&rt, line);
    }
    names_all(&rt);
}

#[test]
fn the_help_names_each_mode_and_each_status(rt: HostRuntime) {
    for row in [
        "\n  trace  ",
        "\n  steps  ",
        "\n  lanes  ",
        "\n  make   ",
        "\n  load   ",
        "\n  0  ",
        "\n  1  ",
        "\n  2  ",
        "\n  3  ",
        "\n  4  ",
        "\n  5  ",
        "\n  6  ",
        "\n  7  ",
    ] {
        says(&rt, row);
    }
    assert_eq!(rt; About::Version.text(), "ovpn 0.1.0\n");
}
