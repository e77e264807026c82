use crate::words::{Mode, PlanStop, RunPlan, plan};
use ov_base::Memory;
use std::alloc::Global;
use std::process::Abort;

/// What is planned by these words.
fn planned(alloc: Global, texts: &[&str]) -> Result<Result<RunPlan, PlanStop>, Memory> {
    let mut words = Vec::new(alloc);
    for text in texts {
        words.push(String::from_str(alloc, *text)?)?;
    }
    Ok(plan(alloc, words.as_slice()))
}

/// Whether these words are no plan's.
fn usage(rt: &impl Abort, alloc: Global, texts: &[&str]) -> bool {
    let Ok(answer) = planned(alloc, texts) else {
        panic!(rt; "no memory");
    };
    matches!(&answer, Err(PlanStop::Usage))
}

/// These words are no plan's.
fn is_usage(rt: &impl Abort, alloc: Global, texts: &[&str]) {
    assert!(rt; usage(rt, alloc, texts), "{texts:?}");
}

/// The plan of these words.
fn plan_of(rt: &impl Abort, alloc: Global, texts: &[&str]) -> RunPlan {
    let Ok(Ok(plan)) = planned(alloc, texts) else {
        panic!(rt; "no plan: {texts:?}");
    };
    plan
}

/// The number that a plan has for an option.
fn number(plan: &RunPlan, option: &str) -> Option<u32> {
    Some(match option {
        "--lanes" => plan.lanes,
        "--head" => plan.head,
        "--first-id" => plan.first_id,
        "--seed" => plan.seed,
        "--count" => plan.count,
        "--turns" => plan.turns,
        "--port" => u32::from(plan.port),
        _ => return None,
    })
}

/// The plan of these words has this number for an option.
fn has_number(rt: &impl Abort, alloc: Global, texts: &[&str], option: &str, wanted: u32) {
    let plan = plan_of(rt, alloc, texts);
    assert_eq!(rt; number(&plan, option), Some(wanted), "{texts:?}");
}

/// The range of an option's number.
#[derive(Clone, Copy)]
struct Range {
    option: &'static str,
    default: u32,
    // The ends of the range, as texts and as numbers.
    lowest: (&'static str, u32),
    highest: (&'static str, u32),
    // The highest number below the range and the lowest above it.
    below: &'static str,
    above: &'static str,
}

impl Range {
    /// The ends of the range are taken in a mode, and what lies beyond is not.
    fn holds_in(&self, rt: &impl Abort, alloc: Global, mode: &'static str) {
        let option = self.option;
        has_number(rt, alloc, &[mode], option, self.default);
        let (low, lowest) = self.lowest;
        has_number(rt, alloc, &[mode, option, low], option, lowest);
        let (high, highest) = self.highest;
        has_number(rt, alloc, &[mode, option, high], option, highest);
        is_usage(rt, alloc, &[mode, option, self.below]);
        is_usage(rt, alloc, &[mode, option, self.above]);
    }

    /// The range holds in each mode, and a text that is no number is not taken.
    fn holds(&self, rt: &impl Abort, alloc: Global) {
        self.holds_in(rt, alloc, "trace");
        self.holds_in(rt, alloc, "steps");
        self.holds_in(rt, alloc, "lanes");
        self.holds_in(rt, alloc, "make");
        self.holds_in(rt, alloc, "load");
        for text in ["", "x", "1.5", "0x10", " 1", "1 "] {
            is_usage(rt, alloc, &["trace", self.option, text]);
        }
    }
}

/// An option whose number goes to the greatest of 32 bits.
fn to_most(
    option: &'static str,
    default: u32,
    below: &'static str,
    lowest: (&'static str, u32),
) -> Range {
    Range {
        option,
        default,
        lowest,
        highest: ("4294967295", 4_294_967_295),
        below,
        above: "4294967296",
    }
}

#[test]
fn each_number_up_to_32_bits_has_its_range_in_each_mode(rt: HostRuntime) {
    to_most("--first-id", 1, "0", ("1", 1)).holds(&rt, rt.alloc());
    to_most("--seed", 1, "-1", ("0", 0)).holds(&rt, rt.alloc());
    to_most("--turns", 1000, "0", ("1", 1)).holds(&rt, rt.alloc());
}

#[test]
fn each_smaller_number_has_its_range_in_each_mode(rt: HostRuntime) {
    let lanes = Range {
        option: "--lanes",
        default: 4,
        lowest: ("1", 1),
        highest: ("64", 64),
        below: "0",
        above: "65",
    };
    lanes.holds(&rt, rt.alloc());
    let head = Range {
        option: "--head",
        default: 0,
        lowest: ("0", 0),
        highest: ("262144", 262_144),
        below: "-1",
        above: "262145",
    };
    head.holds(&rt, rt.alloc());
    let count = Range {
        option: "--count",
        default: 1000,
        lowest: ("1", 1),
        highest: ("100000", 100_000),
        below: "0",
        above: "100001",
    };
    count.holds(&rt, rt.alloc());
    let port = Range {
        option: "--port",
        default: 1194,
        lowest: ("1", 1),
        highest: ("65344", 65_344),
        below: "0",
        above: "65345",
    };
    port.holds(&rt, rt.alloc());
}

/// An option has one value and stands once.
fn stands_once(rt: &impl Abort, alloc: Global, option: &str) {
    assert!(rt; !usage(rt, alloc, &["trace", option, "1"]), "{option}");
    is_usage(rt, alloc, &["trace", option]);
    is_usage(rt, alloc, &["trace", option, "1", option, "1"]);
    is_usage(rt, alloc, &["trace", option, "1", "2"]);
}

#[test]
fn an_option_has_one_value_and_stands_once(rt: HostRuntime) {
    for option in [
        "--lanes",
        "--head",
        "--first-id",
        "--schedule",
        "--seed",
        "--count",
        "--turns",
        "--port",
    ] {
        stands_once(&rt, rt.alloc(), option);
    }
}

#[test]
fn another_first_word_is_no_mode(rt: HostRuntime) {
    is_usage(&rt, rt.alloc(), &[]);
    is_usage(&rt, rt.alloc(), &["--first-id", "1"]);
    for mode in [
        "",
        "run",
        "Trace",
        "trac",
        "traces",
        "step",
        "Make",
        "mak",
        "made",
        "Lanes",
        "lane",
        "serve",
        "--trace",
        "-t",
        "--",
        "--help",
        "-h",
        "--version",
    ] {
        is_usage(&rt, rt.alloc(), &[mode]);
    }
}

#[test]
fn another_word_behind_the_mode_is_no_option(rt: HostRuntime) {
    for word in [
        "trace",
        "steps",
        "make",
        "--lane",
        "--first_id",
        "--help",
        "-h",
        "--version",
        "-V",
        "-l",
    ] {
        is_usage(&rt, rt.alloc(), &["trace", word]);
        is_usage(&rt, rt.alloc(), &["trace", word, "1"]);
    }
}

/// The plan of these words is one of turns by these lanes.
fn turns_by(rt: &impl Abort, alloc: Global, texts: &[&str], lanes: &[u32]) {
    let plan = plan_of(rt, alloc, texts);
    assert_eq!(rt; plan.mode, Mode::Steps);
    assert_eq!(rt; plan.schedule.as_slice(), lanes);
}

#[test]
fn a_schedule_has_the_lanes_of_its_text(rt: HostRuntime) {
    let trace = plan_of(&rt, rt.alloc(), &["trace"]);
    assert_eq!(rt; trace.mode, Mode::Trace);
    assert!(rt; trace.schedule.as_slice().is_empty());
    let lanes = [0, 9, 10, 63];
    turns_by(
        &rt,
        rt.alloc(),
        &["steps", "--schedule", "0,9,10,63"],
        &lanes,
    );
    turns_by(
        &rt,
        rt.alloc(),
        &["--schedule", "0,9,10,63", "steps"],
        &lanes,
    );
    turns_by(
        &rt,
        rt.alloc(),
        &["--schedule=0,9,10,63", "--", "steps"],
        &lanes,
    );
    turns_by(&rt, rt.alloc(), &["steps"], &[]);
    turns_by(&rt, rt.alloc(), &["steps", "--schedule", ""], &[]);
    turns_by(&rt, rt.alloc(), &["steps", "--schedule="], &[]);
}

#[test]
fn other_texts_are_no_schedule(rt: HostRuntime) {
    for text in [",", "0,", ",0", "0,,1", "64", "00", "01", "+1", "0, 1", "a"] {
        is_usage(&rt, rt.alloc(), &["trace", "--schedule", text]);
        is_usage(&rt, rt.alloc(), &["steps", "--schedule", text]);
    }
}

/// The plan of these words makes a script of this seed and count.
fn makes(rt: &impl Abort, alloc: Global, texts: &[&str], seed: u32, count: u32) {
    let plan = plan_of(rt, alloc, texts);
    assert_eq!(rt; plan.mode, Mode::Make);
    assert_eq!(rt; plan.seed, seed);
    assert_eq!(rt; plan.count, count);
}

#[test]
fn a_made_script_has_the_seed_and_the_count_of_the_words(rt: HostRuntime) {
    makes(&rt, rt.alloc(), &["make"], 1, 1000);
    makes(&rt, rt.alloc(), &["make", "--seed", "7"], 7, 1000);
    makes(&rt, rt.alloc(), &["make", "--count", "4"], 1, 4);
    makes(
        &rt,
        rt.alloc(),
        &["--count=100000", "--seed=0", "make"],
        0,
        100_000,
    );
}

#[test]
fn lanes_on_threads_have_their_number_and_head(rt: HostRuntime) {
    let plan = plan_of(&rt, rt.alloc(), &["lanes", "--lanes", "8", "--head", "9"]);
    assert_eq!(rt; plan.mode, Mode::Lanes);
    assert_eq!(rt; plan.lanes, 8);
    assert_eq!(rt; plan.head, 9);
    let load = plan_of(&rt, rt.alloc(), &["load", "--count", "4"]);
    assert_eq!(rt; load.mode, Mode::Load);
    assert_eq!(rt; load.count, 4);
}
