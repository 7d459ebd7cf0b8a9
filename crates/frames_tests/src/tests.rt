// A few of the edges; the many are the input of the program `edges`.
use frames::{Downlink, FrameFault, MobileIdentity, read};
use std::test::Fail;
use vocabulary::Refusal;

// The number and the octet of a refusal; 0 where the frame is read.
fn refused(answer: Result<Downlink, FrameFault>) -> (u8, usize) {
    match answer {
        Ok(_) => (0, 0),
        Err(fault) => {
            let refusal = Refusal::from(fault);
            (refusal.number, refusal.octet)
        }
    }
}

#[test]
fn cut_short_comes_before_a_bad_result(rt: HostRuntime) {
    assert_eq!(rt; refused(read(&[0x08, 0x02, 0x02])), (13, 4));
}

#[test]
fn bad_value_comes_before_an_earlier_unknown_tag(rt: HostRuntime) {
    assert_eq!(rt;
        refused(read(&[0x08, 0x06, 0x00, 0x0f, 0x00, 0x2a, 0x00])),
        (14, 6)
    );
}

#[test]
fn second_of_a_tag_is_not_looked_at(rt: HostRuntime) {
    assert_eq!(rt;
        refused(read(&[0x08, 0x06, 0x00, 0x2a, 0x01, 0x2c, 0x2a, 0x00])),
        (0, 0)
    );
}

// The TMSI that a location updating reject carries; 0 where there is none.
fn tmsi_bits(message: Downlink) -> u32 {
    let Downlink::LocationReject(_, elements) = message else {
        return 0;
    };
    let Some(identity) = elements.identity else {
        return 0;
    };
    match identity {
        MobileIdentity::Tmsi(tmsi) => tmsi.bits,
        MobileIdentity::Imsi(_) => 0,
    }
}

#[test]
fn circuit_tag_17_has_a_length_octet(rt: HostRuntime) -> Result<(), Fail> {
    let frame = [0x05, 0x04, 0x0d, 0x17, 0x05, 0xf4, 0x87, 0x65, 0x43, 0x21];
    match read(&frame) {
        Ok(message) => {
            assert_eq!(rt; tmsi_bits(message), 0x8765_4321);
            Ok(())
        },
        Err(_) => Err(Fail::new("the reject was not read")),
    }
}
