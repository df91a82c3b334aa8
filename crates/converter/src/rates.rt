// The rates of a packet: whether each has a code in the other edition, and writing them in it.
ghost use Rattle.std.specs.Prelude.{◌≡◌, true, ◌+◌, ◌*◌, ◌≤◌, ◌<◌, length};
ghost use Rattle.rate_code.specs.Rate.{count_limit};
ghost use Rattle.rate_code.specs.Editions.{first_mark, mark_in};
ghost use Rattle.wire.specs.Bytes.{put};
ghost use Rattle.packet.specs.Layout.{packet_bytes, body_at, frame_at, code_bytes};
ghost use Rattle.packet.specs.Packet.{codes};
ghost use Rattle.decode.specs.Read.{rate_at, rates_of, codes_good};
ghost use Rattle.converter.specs.Convert.{recoded, convertible, rates_exact};

use packet::envelope::write_sum;
use packet::layout;
use packet::layout::PACKET_BYTES;
use rate_code::code::exact;
use rate_code::editions::Edition;
use rate_code::first::First;
use wire::number::BigEndian;

// A packet that begins with n codes that counts have, in the edition of its mark.
#[derive(Clone, Copy)]
pub struct Rates<'a> {
    pub packet: &'a [u8; PACKET_BYTES],
    pub n: usize,
    ghost fits: { body_at + code_bytes * n ≤ frame_at },
    ghost good: { codes_good n packet.now ≡ true },
}

impl Rates<'_> {
    // Rate i: the least count of its code.
    fn rate(&self, i: usize) -> u32
        requires { i < self.now.n }
        ensures { (result ≡ rate_at self.now.packet.now i) × (result < count_limit) }
    {
        let packet = self.packet;
        let code = u16::read(packet, layout::BODY_AT + layout::CODE_BYTES * i);
        Edition::from(packet[layout::MARK_AT]).least_count(code)
    }

    // Whether each is the least count of a first-edition code. A loop, since by `all` the proof didn't close.
    fn exact(&self) -> bool
        ensures { result ≡ rates_exact first_mark self.now.n self.now.packet.now }
    {
        let mut all = true;
        for i in 0..self.n {
            all = all & exact::<First>(self.rate(i));
        }
        all
    }

    // Whether each has a code in the edition wanted. The second has one for every rate of the first.
    pub fn keeps(&self, wanted: Edition) -> bool
        requires { convertible (mark_in wanted) self.now.packet.now ≡ true }
        ensures { result ≡ rates_exact (mark_in wanted) self.now.n self.now.packet.now }
    {
        match wanted {
            Edition::First => self.exact(),
            Edition::Second => true,
        }
    }

    // Writes them to their place, in the edition wanted. `out` is a slice, as `write_sum` takes one, and the loop goes by the place
    // for which `rate` is asked.
    fn write(&self, wanted: Edition, out: &mut [u8])
        requires { length out.old ≡ packet_bytes }
        ensures { out.new ≡ put out.old body_at (codes (mark_in wanted) (rates_of self.now.n self.now.packet.now)) }
    {
        for i in 0..self.n {
            let code = wanted.encode(self.rate(i));
            code.put(out, layout::BODY_AT + layout::CODE_BYTES * i);
        }
    }

    // Writes the packet in the edition of the mark wanted, which may be any byte.
    #[tactic(auto, using(crate::proofs::Recoded::same_codes), unfolding(crate::specs::Convert::recoded))]
    pub fn recode(&self, wanted: u8, out: &mut [u8])
        requires { length out.old ≡ packet_bytes }
        ensures { out.new ≡ recoded wanted self.now.n self.now.packet.now }
    {
        let packet = self.packet;
        out.copy_from_slice(packet);
        out[layout::MARK_AT] = wanted;
        self.write(Edition::from(wanted), out);
        write_sum(out);
    }
}
