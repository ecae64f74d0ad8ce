// Plays matches from a table on the standard input, a line each: the format's name, the opener, and the points, as in
//
//     tennis3 A ABABAABB
//
// For each it prints how many points were taken before the end, the winner, the server of every point that was taken, and
// the levels from the outside in, with `/` and the winner behind a level that has one.
#![tactic(auto)]

use anyhow::Context;
use contest::contest::Contest;
use contest::service::Service;
use contest::side::Side;
use formats::format::Format;
use formats::piles::{badminton, game, sideout, table5, tennis3, tennis5, tennismt, volleyball};
use std::alloc::{AllocError, Global};
use std::fmt::Write;

// A line of the table.
#[derive(Drop)]
struct Line {
    format: Format,
    opener: Side,
    points: Vec<Side>,
}

fn points_of(heap: Global, text: &str) -> anyhow::Result<Vec<Side>> {
    text.bytes()
        .map(|letter| Side::try_from(letter)
            .ok()
            .context("a point is neither A nor B"))
        .try_collect(heap)
}

// A line of the table: no `FromStr`, which is given no heap.
fn parse_line(heap: Global, text: &str) -> anyhow::Result<Line> {
    let (name, rest) = text.split_once(' ').context("a line has no opener")?;
    let (opener, points) = rest.split_once(' ').context("a line has no points")?;
    Ok(Line {
        format: name.parse::<Format>()?,
        opener: opener
            .parse::<Side>()
            .ok()
            .context("an opener is neither A nor B")?,
        points: points_of(heap, points)?,
    })
}

// The servers of the points that the pile takes, in turn, up to the first that it refuses.
fn servers<C: Contest>(heap: Global, pile: &mut C, points: &[Side]) -> Result<String, AllocError> {
    let mut servers = String::new(heap);
    for side in points {
        let server = pile.server();
        if pile.point(*side).is_err() {
            break;
        }
        servers.push(char::from(u8::from(server)))?; // a letter for each point, and no `write!`, which takes longer
    }
    Ok(servers)
}

fn levels<C: Contest>(heap: Global, pile: &C) -> Result<String, AllocError> {
    let mut text = String::new(heap);
    for depth in 0..16u16 {
        let Some(level) = pile.level(depth) else {
            break;
        };
        write!(text, " {}-{}", level.a, level.b)?;
        if let Some(winner) = level.winner {
            write!(text, "/{winner}")?;
        }
    }
    Ok(text)
}

fn replay<C: Contest + Drop>(rt: &HostRuntime, mut pile: C, line: &Line) -> anyhow::Result<()> {
    pile.open(line.opener);
    let servers = servers(rt.alloc(), &mut pile, &line.points)?;
    let taken = servers.len();
    let Line { format, opener, .. } = line;
    match pile.winner() {
        Some(side) => println!(rt; "{format} {opener} taken {taken} winner {side}")?,
        None => println!(rt; "{format} {opener} taken {taken} winner nobody")?,
    }
    println!(rt; "servers {servers}")?;
    let levels = levels(rt.alloc(), &pile)?;
    println!(rt; "levels{levels}")?;
    Ok(())
}

// The piles have a type for each format, and no closure is generic: so a format is matched where its pile is used.
fn replay_line(rt: &HostRuntime, line: &Line) -> anyhow::Result<()> {
    match line.format {
        Format::Game => replay(rt, game(), line),
        Format::Tennis3 => replay(rt, tennis3(), line),
        Format::Tennis5 => replay(rt, tennis5(), line),
        Format::TennisMt => replay(rt, tennismt(), line),
        Format::Badminton => replay(rt, badminton(), line),
        Format::Volleyball => replay(rt, volleyball(), line),
        Format::Table5 => replay(rt, table5(), line),
        Format::SideOut => replay(rt, sideout(), line),
    }
}

fn run(rt: &HostRuntime) -> anyhow::Result<()> {
    for text in rt.lines(rt.alloc()) {
        let text = text?;
        replay_line(rt, &parse_line(rt.alloc(), text.as_str())?)?;
    }
    Ok(())
}

fn main(rt: HostRuntime) -> anyhow::Result<()> {
    run(&rt)
}
