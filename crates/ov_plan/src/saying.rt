//! What the program says of itself on standard output: its help, and its version.

ghost use Rattle.std.specs.Prelude.{◌≡◌, map, string_bytes, None, IfSome};
ghost use Rattle.ov_plan.specs.declared.saying.About.{About};
ghost use Rattle.ov_plan.specs.Saying as spec;

/// What the program may be asked to say of itself.
#[derive(Clone, Copy, Debug, PartialEq, Eq)]
pub enum About {
    /// What it is, its modes, options and statuses, and an example.
    Help,
    /// Its name and version.
    Version,
}

impl About {
    /// The text: whole lines of at most 80 bytes.
    pub fn text(self) -> &'static str {
        match self {
            About::Help => HELP,
            About::Version => VERSION,
        }
    }
}

/// What this word asks the program to say.
fn named(word: &str) -> Option<About>
    ensures some { IfSome result (λ it. spec.Names it word.now) }
    ensures none { result ≡ None → (it : About) → ¬ (spec.Names it word.now) }
{
    if word == "--help" || word == "-h" {
        Some(About::Help)
    } else if word == "--version" {
        Some(About::Version)
    } else {
        None
    }
}

/// What the words ask the program to say: the one word `--help` or `-h` its help, the one word `--version` its
/// version, and all other words nothing.
pub fn said(words: &[String]) -> Option<About>
    ensures some { IfSome result (λ it. spec.Asks (map string_bytes words.now) it) }
    ensures none { result ≡ None → (it : About) → ¬ (spec.Asks (map string_bytes words.now) it) }
{
    match words {
        [word] => named(word.as_str()),
        _ => None,
    }
}

const VERSION: &str = "ovpn 0.1.0\n";

const HELP: &str = r#"ovpn: the data path of the Linux OpenVPN driver, as a verified program

It reads a script of JSON lines on standard input (commands, packets to send,
datagrams received) or makes one, runs it, and writes a report on standard
output.

Usage: ovpn MODE [options]

Modes:
  trace  each line runs to its end, in the order of the script
  steps  the lanes take turns by --schedule, an event each; behind it each lane
         in turn runs to its end
  lanes  each lane runs on a thread of its own, behind the first --head lines,
         which run in the order of the script
  make   a script is made from --seed and --count and run as by trace; nothing
         is read, and the report's last line alone is written, the summary
  load   the same script, run as by lanes on 8 lanes with a head of 256 lines

Options, which every mode reads and holds to their ranges:
  --first-id N      in trace, steps and lanes, the first packet id of every
                    key, 1 to 4294967295 (1)
  --schedule LANES  in steps, the lanes that take the first turns: numbers from
                    0 to 63, joined by commas (none)
  --lanes N         in lanes, how many lanes run, 1 to 64 (4)
  --head N          in lanes, how many lines run before the others,
                    0 to 262144 (0)
  --seed N          in make and load, what keys and packets are made from,
                    0 to 4294967295 (1)
  --count N         in make and load, how many packets and datagrams there
                    are, 1 to 100000 (1000)
  --turns N         1 to 4294967295 (1000); no mode uses it yet
  --port N          1 to 65344 (1194); no mode uses it yet
The default stands in brackets.

  ovpn --help, ovpn -h   this text
  ovpn --version         the version

Status:
  0  the whole report was written
  1  the words are no use of the program
  2  a line of the script is not in the grammar
  3  the script passes a limit
  4  a read failed
  5  a write failed
  6  out of memory
  7  a link failed; no mode uses links yet
Standard error says in one line why a status isn't 0.

Example:
  ovpn steps --schedule 0,0,0,1,1 < examples/two-lanes.jsonl
"#;
