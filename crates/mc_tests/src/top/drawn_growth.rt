// DrawnScript scripts of networks that grow and shrink, beside the networks of all channels that ever join, laid out from the
// beginning: both print the same paths of the channels that are in.

use super::{answered, is_equal_at};
use mc_text::next_line;
use std::alloc::{AllocError, Global};
use std::process::Abort;
use std::thread::Threads;

const SCRIPTS: u64 = 250;

const SETTLES: u32 = 5;

// The phones are `p0` and so on, and one feature is beside them.
const PHONES: u32 = 4;

const BOXES: &str =
    "media 1\ncodec g711\ndev p0 g711\ndev p1 g711\ndev p2 g711\ndev p3 g711\nfeat f\n";

// Numbers that are drawn from a seed on.
#[derive(Drop)]
struct Numbers {
    state: u64,
}

impl Numbers {
    // The next one, below a bound, if the bound isn't 0.
    fn below(&mut self, bound: u32) -> u32 {
        self.state = self
            .state
            .wrapping_mul(6_364_136_223_846_793_005)
            .wrapping_add(1_442_695_040_888_963_407);
        let drawn = (self.state >> 33) as u32;
        drawn % bound.max(1)
    }
}

// What the channel of a phone leads to.
#[derive(Clone, Copy, Debug, PartialEq, Eq)]
enum Far {
    Phone(u32),
    Feature,
}

// What a channel is used for: a call of two phones, or a call through the feature, with the channel of this number.
#[derive(Clone, Copy, Debug, PartialEq, Eq)]
enum Use {
    Free,
    Call,
    Linked(u32),
}

// A channel, and the settles from which on it is in and is out.
#[derive(Clone, Copy, Debug)]
struct DrawnScript {
    number: u32,
    phone: u32,
    far: Far,
    used: Use,
    joined: u32,
    cut: u32,
}

impl DrawnScript {
    fn is_in(&self, settle: u32) -> bool {
        self.joined <= settle && settle < self.cut
    }

    // It is in, nobody uses it, and it leads there.
    fn is_free(&self, settle: u32, to_feature: bool) -> bool {
        self.is_in(settle) && self.used == Use::Free && (self.far == Far::Feature) == to_feature
    }

    // Whether a line is of a path that begins at it.
    fn begins(&self, alloc: Global, line: &[u8]) -> Result<bool, AllocError> {
        let DrawnScript { number, phone, .. } = self;
        let path = format!(in alloc; "path p{phone}/s{number} ")?;
        Ok(line.starts_with(path.as_bytes()))
    }

    // The line that lays it out or joins it, after its first word.
    fn words(&self, alloc: Global) -> Result<String, AllocError> {
        let DrawnScript { number, phone, .. } = self;
        match self.far {
            Far::Phone(other) => format!(in alloc; "audio p{phone} s{number} p{other} s{number}\n"),
            Far::Feature => format!(in alloc; "audio p{phone} s{number} f s{number}\n"),
        }
    }
}

// A script while it is drawn: its channels, their lines, the lines after `grow`, and the commands alone.
#[derive(Drop)]
struct Script {
    numbers: Numbers,
    channels: Vec<DrawnScript>,
    count: u32,
    laid: String,
    grown: String,
    commands: String,
}

impl Script {
    fn new(alloc: Global, seed: u64) -> Script {
        Script {
            numbers: Numbers { state: seed },
            channels: Vec::new(alloc),
            count: 0,
            laid: String::new(alloc),
            grown: String::new(alloc),
            commands: String::new(alloc),
        }
    }

    // A command of both.
    fn command(&mut self, line: &str) -> Result<(), AllocError> {
        self.grown.push_str(line)?;
        self.commands.push_str(line)
    }

    // A phone other than this one.
    fn other_phone(&mut self, phone: u32) -> u32 {
        let further = self.numbers.below(PHONES - 1).saturating_add(1);
        phone.saturating_add(further) % PHONES
    }

    // A channel joins before a settle.
    fn join(&mut self, alloc: Global, settle: u32) -> Result<(), AllocError> {
        let phone = self.numbers.below(PHONES);
        let far = match self.numbers.below(2) {
            0 => Far::Feature,
            _ => Far::Phone(self.other_phone(phone)),
        };
        let channel = DrawnScript {
            number: self.count,
            phone,
            far,
            used: Use::Free,
            joined: settle,
            cut: u32::MAX,
        };
        let words = channel.words(alloc)?;
        self.laid.push_str("chan ")?;
        self.laid.push_str(words.as_str())?;
        self.grown.push_str("join ")?;
        self.grown.push_str(words.as_str())?;
        self.channels.push(channel)?;
        self.count = self.count.saturating_add(1);
        Ok(())
    }
}

impl Script {
    // The channel of this number, if there is one.
    fn channel(&self, number: u32) -> Option<DrawnScript> {
        self.channels.get(number as usize).copied()
    }

    fn set_use(&mut self, number: u32, used: Use) {
        if let Some(channel) = self.channels.get_mut(number as usize) {
            channel.used = used;
        }
    }

    // A channel that nobody uses is cut before a settle, or isn't.
    fn cut(&mut self, alloc: Global, number: u32, settle: u32) -> Result<(), AllocError> {
        let cut = self.numbers.below(4) == 0;
        let Some(channel) = self.channels.get_mut(number as usize) else {
            return Ok(());
        };
        if cut && channel.is_in(settle) && channel.used == Use::Free {
            channel.cut = settle;
            let line = format!(in alloc; "cut p{} s{number}\n", channel.phone)?;
            self.grown.push_str(line.as_str())?;
        }
        Ok(())
    }

    // A phone opens a channel, or holds it, or closes it.
    fn set_phone(
        &mut self,
        alloc: Global,
        channel: DrawnScript,
        goal: &str,
    ) -> Result<(), AllocError> {
        let DrawnScript { number, phone, .. } = channel;
        let line = format!(in alloc; "set p{phone} s{number} {goal}\n")?;
        self.command(line.as_str())
    }

    // The goal of who is called.
    fn answer(&mut self) -> &'static str {
        match self.numbers.below(2) {
            0 => "hold",
            _ => "open",
        }
    }

    // One phone calls the other over a channel.
    fn call(&mut self, alloc: Global, channel: DrawnScript, other: u32) -> Result<(), AllocError> {
        let number = channel.number;
        self.set_use(number, Use::Call);
        self.set_phone(alloc, channel, "open")?;
        let goal = self.answer();
        let line = format!(in alloc; "set p{other} s{number} {goal}\n")?;
        self.command(line.as_str())
    }

    // The first channel after one that leads to the feature, which nobody uses.
    fn partner(&self, number: u32, settle: u32) -> Option<DrawnScript> {
        self.channels
            .iter()
            .find(|other| other.number > number && other.is_free(settle, true))
            .copied()
    }

    // One phone calls another through the feature.
    fn call_through(
        &mut self,
        alloc: Global,
        one: DrawnScript,
        other: DrawnScript,
    ) -> Result<(), AllocError> {
        self.set_use(one.number, Use::Linked(other.number));
        self.set_use(other.number, Use::Linked(one.number));
        let link = format!(in alloc; "link f s{} s{}\n", one.number, other.number)?;
        self.command(link.as_str())?;
        self.set_phone(alloc, one, "open")?;
        let goal = self.answer();
        self.set_phone(alloc, other, goal)
    }

    // A call may begin over a channel that nobody uses.
    fn begin(
        &mut self,
        alloc: Global,
        channel: DrawnScript,
        settle: u32,
    ) -> Result<(), AllocError> {
        match channel.far {
            Far::Phone(other) => self.call(alloc, channel, other),
            Far::Feature => match self.partner(channel.number, settle) {
                Some(other) => self.call_through(alloc, channel, other),
                None => Ok(()),
            },
        }
    }

    // The end of a channel that is no phone's is closed.
    fn close_far(&mut self, alloc: Global, channel: DrawnScript) -> Result<(), AllocError> {
        let number = channel.number;
        let line = match channel.far {
            Far::Phone(other) => format!(in alloc; "set p{other} s{number} close\n")?,
            Far::Feature => format!(in alloc; "set f s{number} close\n")?,
        };
        self.command(line.as_str())
    }

    // Both ends of a channel are closed, and nobody uses it.
    fn close(&mut self, alloc: Global, channel: DrawnScript) -> Result<(), AllocError> {
        self.set_use(channel.number, Use::Free);
        self.set_phone(alloc, channel, "close")?;
        self.close_far(alloc, channel)
    }

    // A call ends.
    fn end(&mut self, alloc: Global, channel: DrawnScript) -> Result<(), AllocError> {
        self.close(alloc, channel)?;
        if let Use::Linked(number) = channel.used {
            if let Some(other) = self.channel(number) {
                return self.close(alloc, other);
            }
        }
        Ok(())
    }

    // What happens over a channel before a settle.
    fn act(&mut self, alloc: Global, number: u32, settle: u32) -> Result<(), AllocError> {
        let Some(channel) = self.channel(number) else {
            return Ok(());
        };
        if !channel.is_in(settle) || self.numbers.below(2) == 0 {
            return Ok(());
        }
        match channel.used {
            Use::Free => self.begin(alloc, channel, settle),
            _ => self.end(alloc, channel),
        }
    }

    // What stands before a settle: cuts and joins, and then commands.
    fn stage(&mut self, alloc: Global, settle: u32) -> Result<(), AllocError> {
        for number in 0..self.count {
            self.cut(alloc, number, settle)?;
        }
        for _ in 0..2 {
            self.join(alloc, settle)?;
        }
        for number in 0..self.count {
            self.act(alloc, number, settle)?;
        }
        self.command("settle\n")
    }

    // Whether a line is of a path over a channel that isn't in at a settle.
    fn hides(&self, alloc: Global, line: &[u8], settle: u32) -> Result<bool, AllocError> {
        for channel in &self.channels {
            if !channel.is_in(settle) && channel.begins(alloc, line)? {
                return Ok(true);
            }
        }
        Ok(false)
    }

    // What was printed, without the paths over channels that aren't in.
    fn shown(&self, alloc: Global, printed: &[u8]) -> Result<Vec<u8>, AllocError> {
        let mut shown = Vec::new(alloc);
        let mut settle: u32 = 0;
        let mut rest = printed;
        while !rest.is_empty() {
            let (line, others) = next_line(rest);
            settle = settle.saturating_add(u32::from(line.starts_with(b"settle ")));
            if !self.hides(alloc, line, settle)? {
                shown.extend_from_slice(line)?;
                shown.push(b'\n')?;
            }
            rest = others;
        }
        Ok(shown)
    }
}

// The script of a seed, drawn to its end.
fn script_of(alloc: Global, seed: u64) -> Result<Script, AllocError> {
    let mut script = Script::new(alloc, seed);
    for settle in 1..=SETTLES {
        script.stage(alloc, settle)?;
    }
    Ok(script)
}

// The network of a script grows, and is laid out whole: both print the same of what is in.
fn prints_alike<R: Threads + Sync + Abort>(
    rt: &R,
    alloc: Global,
    script: &Script,
) -> Result<(), AllocError> {
    let Script {
        laid,
        grown,
        commands,
        ..
    } = script;
    let text = format!(in alloc; "{BOXES}begin\ngrow\n{grown}")?;
    let got = answered(rt, alloc, &["grow"], text.as_bytes())?;
    is_equal_at(rt, &got.done.status, &0, text.as_str());
    let whole = format!(in alloc; "{BOXES}{laid}begin\n{commands}")?;
    let want = answered(rt, alloc, &["run"], whole.as_bytes())?;
    is_equal_at(rt, &want.done.status, &0, whole.as_str());
    let shown = script.shown(alloc, &want.written)?;
    is_equal_at(
        rt,
        &got.written.as_slice(),
        &shown.as_slice(),
        text.as_str(),
    );
    Ok(())
}

// The scripts of so many seeds from one on do.
fn print_alike_from<R: Threads + Sync + Abort + AllocGlobal>(
    rt: &R,
    first: u64,
) -> Result<(), AllocError> {
    for seed in 0..SCRIPTS {
        let script = script_of(rt.alloc(), first.wrapping_add(seed))?;
        prints_alike(rt, rt.alloc(), &script)?;
    }
    Ok(())
}

// A thousand scripts, in four tests, since each has a minute.

#[test]
fn drawn_networks_print_what_they_print_laid_out_whole(rt: HostRuntime) -> Result<(), AllocError> {
    print_alike_from(&rt, 0)
}

#[test]
fn a_second_quarter_of_drawn_networks_does(rt: HostRuntime) -> Result<(), AllocError> {
    print_alike_from(&rt, SCRIPTS)
}

#[test]
fn a_third_quarter_of_drawn_networks_does(rt: HostRuntime) -> Result<(), AllocError> {
    print_alike_from(&rt, 2 * SCRIPTS)
}

#[test]
fn the_last_quarter_of_drawn_networks_does(rt: HostRuntime) -> Result<(), AllocError> {
    print_alike_from(&rt, 3 * SCRIPTS)
}
