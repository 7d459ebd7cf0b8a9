// The GPRS timer octet.
ghost use Rattle.std.specs.Prelude.{◌≡◌};
ghost use Rattle.vocabulary.specs.Timers.{gprs_seconds};

// How long a timer runs, in seconds; 0 for one that does not.
pub fn gprs_seconds(octet: u8) -> u32
    ensures value { result ≡ gprs_seconds octet }
{
    let unit = match octet / 32 {
        0 => 2,
        2 => 360,
        7 => 0,
        _ => 60,
    };
    u32::from(octet % 32) * unit
}
