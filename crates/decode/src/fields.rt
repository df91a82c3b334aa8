// What stands in a packet.
ghost use Rattle.std.specs.Prelude.{◌≡◌, true, ◌+◌, ◌*◌, ◌≤◌, length};
ghost use Rattle.packet.specs.Layout.{packet_bytes, body_at, code_bytes};
ghost use Rattle.decode.specs.Read.{application_of, sequence_of, settings_of, rates_of, codes_good};

use packet::layout;
use packet::layout::PACKET_BYTES;
use rate_code::editions::Edition;
use settings::Settings;
use wire::number::BigEndian;

// The application number: the low eleven bits of the first header word.
pub fn application(packet: &[u8; PACKET_BYTES]) -> u16
    ensures { result ≡ application_of packet.now }
{
    u16::read(packet, layout::APPLICATION_AT) % layout::SECONDARY_FLAG
}

// The sequence count: the low fourteen bits of the second header word.
pub fn sequence(packet: &[u8; PACKET_BYTES]) -> u16
    ensures { result ≡ sequence_of packet.now }
{
    u16::read(packet, layout::SEQUENCE_AT) % layout::SEQUENCE_COUNTS
}

// The settings of a rate packet.
#[tactic(auto, unfolding(crate::specs::Read::settings_of))]
pub fn settings(packet: &[u8; PACKET_BYTES]) -> Settings
    ensures { result ≡ settings_of packet.now }
{
    let limhi = u16::read(packet, layout::LIMHI_AT);
    Settings::from_flags(packet[layout::FLAGS_AT], limhi, packet[layout::HVSTEP_AT])
}

// The least counts of the packet's first codes, as many as there is room for, in the edition of its mark. By place: zipped with
// the codes it would end with the shorter.
pub fn rates(packet: &[u8; PACKET_BYTES], counts: &mut [u32])
    requires counts_len { body_at + code_bytes * length counts.old ≤ packet_bytes }
    requires packet_value { codes_good (length counts.old) packet.now ≡ true }
    ensures { counts.new ≡ rates_of (length counts.old) packet.now }
{
    let edition = Edition::from(packet[layout::MARK_AT]);
    for (i, count) in counts.iter_mut().enumerate() {
        let code = u16::read(packet, layout::BODY_AT + layout::CODE_BYTES * i);
        *count = edition.least_count(code);
    }
}
