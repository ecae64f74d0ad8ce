// The lines of a script. What a line's words are is not stated, since no contract of the standard library says what a word of a
// text holds; what a call leaves of the script is.
ghost use Rattle.std.specs.Prelude.{◌≡◌};
ghost use Rattle.replay.specs.Scripts.{Begun, Kept};

use contest::side::Side;
use formats::format::Format;
use umpire::calls::Call;
use umpire::rally::RallyNumbers;

// The match of a script.
#[derive(Clone, Copy)]
pub struct Heading {
    pub format: Format,
    pub number: u16,
    pub opener: Side,
    // how many places its log has
    pub places: usize,
}

// A match and the calls that it meets.
#[derive(Drop)]
pub struct Script {
    pub heading: Heading,
    pub calls: Vec<Call>,
    // the rally that a settling without numbers means
    last: LastRally,
}

// The rally that a line called last, by its number, and whether a line has settled it.
#[derive(Clone, Copy)]
enum LastRally {
    Open(u16),
    Settled(u16),
}

impl LastRally {
    fn number(self) -> u16 {
        match self {
            LastRally::Open(number) | LastRally::Settled(number) => number,
        }
    }
}

impl Heading {
    // The match of a line `match FORMAT NUMBER OPENER`, with the number of the log's places behind it if that is not `most`: no `FromStr`, which
    // has no second argument.
    fn read(line: &str, most: usize) -> Option<Heading> {
        let mut words = line.split_whitespace();
        if words.next()? != "match" {
            return None;
        }
        Some(Heading {
            format: words.next()?.parse::<Format>().ok()?,
            number: words.next()?.parse::<u16>().ok()?,
            opener: words.next()?.parse::<Side>().ok()?,
            places: match words.next() {
                Some(word) => word.parse::<usize>().ok()?,
                None => most,
            },
        })
    }
}

impl Script {
    // The script that begins with a line, as yet without calls.
    pub fn begin(calls: Vec<Call>, line: &str, most: usize) -> Option<Script>
        ensures { Begun calls result }
    {
        Some(Script {
            heading: Heading::read(line, most)?,
            calls,
            last: LastRally::Settled(0),
        })
    }

    // The call of any other line.
    pub fn call(&mut self, line: &str) -> Option<Call>
        ensures { Kept self.old self.new }
    {
        let mut words = line.split_whitespace();
        match words.next()? {
            "rally" => {
                if let LastRally::Settled(number) = self.last {
                    self.last = LastRally::Open(number.checked_add(1)?);
                }
                Some(Call::Rally)
            }
            "point" => {
                let side = words.next()?.parse::<Side>().ok()?;
                Some(Call::Point(side, self.rally_meant(words.next(), words.next())?))
            }
            "let" => Some(Call::Let(self.rally_meant(words.next(), words.next())?)),
            "winner" => Some(Call::Winner),
            "server" => Some(Call::Server),
            "level" => Some(Call::Level(words.next()?.parse::<u16>().ok()?)),
            "totals" => Some(Call::Totals),
            _ => None,
        }
    }

    // The rally of two numbers, the match's and its own, or else the last that a line called.
    fn rally_meant(&mut self, first: Option<&str>, second: Option<&str>) -> Option<RallyNumbers>
        ensures { Kept self.old self.new }
    {
        if let Some(word) = first {
            return Some(RallyNumbers {
                match_number: word.parse::<u16>().ok()?,
                number: second?.parse::<u16>().ok()?,
            });
        }
        let number = self.last.number();
        self.last = LastRally::Settled(number);
        Some(RallyNumbers {
            match_number: self.heading.number,
            number,
        })
    }
}
