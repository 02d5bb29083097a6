//! Numbers that look drawn by chance, and are the same each time.

ghost use Rattle.std.specs.Prelude.{◌≡◌, ◌<◌, ◌/◌};
ghost use Rattle.mc_text.specs.Draws.{next_state};

/// A source of draws. Any state may be its start.
#[derive(Clone, PartialEq, Eq, Debug, Drop)]
pub struct Draws {
    pub state: u32,
}

impl Draws {
    /// The next draw, 0 to 32,767.
    pub fn draw(&mut self) -> u32
        ensures next { self.new.state ≡ next_state self.old.state }
        ensures drawn { result ≡ self.new.state / 65536 }
        ensures below { result < 32768 }
    {
        let state = (1_103_515_245 * u64::from(self.state) + 12_345) % 0x8000_0000;
        self.state = state as u32;
        self.state / 65_536
    }
}
