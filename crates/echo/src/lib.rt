// Echoes into the lent 128 bytes, zeros behind.
#![tactic(auto)]

ghost use Rattle.std.specs.Prelude.{◌≡◌, ◌++◌, ◌+◌, ◌*◌, ◌≤◌, ◌<◌, length, take};
ghost use Rattle.wire.specs.Pieces.{runs};
ghost use Rattle.wire.specs.Text.{hex_digit, hex2};
ghost use Rattle.echo.specs.Echo.{written, ending, numbers, echo_bytes, echoed};
ghost use Rattle.echo.specs.Echo.{accepted_echo, refused_echo, prompt_echo, package_ok_echo, package_error_echo};

use wire::write::{put_bytes, put_zeros};

pub const ECHO_BYTES: usize = 128;

pub type Echo = [u8; ECHO_BYTES];

// A digit 0-9 a-f. `char::from_digit` would give an `Option`, with a case that no d below 16 takes.
pub fn hex_digit(d: u8) -> u8
    requires { d < 16 }
    ensures { result ≡ hex_digit d }
{
    if d <= 9 {
        return b'0' + d;
    }
    b'a' + (d - 10)
}

// An echo of which the bytes before `at` are written: the library's writers have a case for a text without room, which no echo has.
// Each method says that it keeps the echo, since a reference in a struct may be put in another's place.
#[derive(Drop)]
struct Writer<'a> {
    echo: &'a mut Echo,
    at: usize,
}

impl<'a> Writer<'a> {
    // The text goes behind what is written.
    #[tactic(auto, using(wire::proofs::Bytes::take_put))]
    fn text(&mut self, text: &[u8])
        requires { self.old.at + length text.now ≤ echo_bytes }
        ensures same_echo { self.new.echo.ghost_name ≡ self.old.echo.ghost_name }
        ensures next { self.new.at ≡ self.old.at + length text.now }
        ensures written { written self.new ≡ written self.old ++ text.now }
    {
        let at = self.at;
        put_bytes(self.echo, at, text);
        self.at = at + text.len();
    }

    // The byte in two digits. `{:02x}` would need a `fmt::Write`, with a case for a text without room, which no echo has.
    fn hex2(&mut self, v: u8)
        requires { self.old.at + 2 ≤ echo_bytes }
        ensures same_echo { self.new.echo.ghost_name ≡ self.old.echo.ghost_name }
        ensures next { self.new.at ≡ self.old.at + 2 }
        ensures written { written self.new ≡ written self.old ++ hex2 v }
    {
        self.text(&[hex_digit(v / 16), hex_digit(v % 16)]);
    }

    // Each byte in two digits.
    fn hex(&mut self, bytes: &[u8])
        requires { self.old.at + 2 * length bytes.now ≤ echo_bytes }
        ensures same_echo { self.new.echo.ghost_name ≡ self.old.echo.ghost_name }
        ensures next { self.new.at ≡ self.old.at + 2 * length bytes.now }
        ensures written { written self.new ≡ written self.old ++ runs hex2 bytes.now }
    {
        for byte in bytes {
            self.hex2(*byte);
        }
    }

    // The address and the number of bytes placed.
    fn numbers(&mut self, address: u32, placed: u32)
        requires { self.old.at + 28 ≤ echo_bytes }
        ensures same_echo { self.new.echo.ghost_name ≡ self.old.echo.ghost_name }
        ensures next { self.new.at ≡ self.old.at + 28 }
        ensures written { written self.new ≡ written self.old ++ numbers address placed }
    {
        self.text(b"binary A:");
        self.hex(&address.to_be_bytes());
        self.text(b" N:");
        self.hex(&placed.to_be_bytes());
    }

    // Zeros behind what is written.
    fn zeros(&mut self)
        requires { self.old.at ≤ echo_bytes }
        ensures same_echo { self.new.echo.ghost_name ≡ self.old.echo.ghost_name }
        ensures whole { self.new.echo.now ≡ echoed (written self.old) }
    {
        let at = self.at;
        put_zeros(self.echo, at, ECHO_BYTES);
    }

    // CR LF and the prompt behind what is written, and zeros to the end.
    fn finish(&mut self)
        requires { self.old.at + length ending ≤ echo_bytes }
        ensures same_echo { self.new.echo.ghost_name ≡ self.old.echo.ghost_name }
        ensures whole { self.new.echo.now ≡ echoed (written self.old ++ ending) }
    {
        self.text(b"\r\nSIT> ");
        self.zeros();
    }
}

// The echo of an accepted line. That a line has at most 80 bytes stays a clause: the call that is given any bytes judges it, with 4.
#[tactic(auto, unfolding(crate::specs::Echo::accepted_echo, wire::specs::Pieces::runs))]
pub fn write_accepted(echo: &mut Echo, frame: u16, sequence: u8, line: &[u8])
    requires { length line.now ≤ 80 }
    ensures { echo.new ≡ accepted_echo frame sequence line.now }
{
    let mut out = Writer { echo, at: 0 };
    out.hex(&[(frame % 256) as u8, sequence]);
    out.text(b" ");
    out.text(line);
    out.finish();
}

// The echo of a refused line.
#[tactic(auto, unfolding(crate::specs::Echo::refused_echo))]
pub fn write_refused(echo: &mut Echo, line: &[u8])
    requires { length line.now ≤ 80 }
    ensures { echo.new ≡ refused_echo line.now }
{
    let mut out = Writer { echo, at: 0 };
    out.text(line);
    out.text(b"?");
    out.finish();
}

// The echo of an empty line.
#[tactic(auto, unfolding(crate::specs::Echo::prompt_echo))]
pub fn write_prompt(echo: &mut Echo)
    ensures { echo.new ≡ prompt_echo }
{
    let mut out = Writer { echo, at: 0 };
    out.text(b"SIT> ");
    out.zeros();
}

// The echo of a package whose sum is right.
#[tactic(auto, unfolding(crate::specs::Echo::package_ok_echo))]
pub fn write_package_ok(echo: &mut Echo, address: u32, placed: u32)
    ensures { echo.new ≡ package_ok_echo address placed }
{
    let mut out = Writer { echo, at: 0 };
    out.numbers(address, placed);
    out.text(b" OK");
    out.finish();
}

// The echo of a package whose sum is wrong.
pub fn write_package_error(echo: &mut Echo, address: u32, placed: u32, received: u16, computed: u16)
    ensures { echo.new ≡ package_error_echo address placed received computed }
{
    let mut out = Writer { echo, at: 0 };
    out.numbers(address, placed);
    out.text(b" ckserr ");
    out.hex(&u32::from(received).to_be_bytes());
    out.text(b" ");
    out.hex(&u32::from(computed).to_be_bytes());
    out.finish();
}
