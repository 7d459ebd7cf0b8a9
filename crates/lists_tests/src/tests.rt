// The lists at their bounds, what stays of them, and whom they bar.
use lists::{AreaBar, Bars, EquivalentPlmns, ForbiddenPlmns, PlmnBar};
use vocabulary::{Lai, Plmn};

// Networks that differ in their last digit.
fn network(digit: u8) -> Plmn {
    Plmn {
        mcc1: 0,
        mcc2: 0,
        mcc3: 1,
        mnc1: 0,
        mnc2: digit % 10,
        mnc3: None,
    }
}

fn area(code: u8) -> Lai {
    Lai {
        plmn: network(1),
        lac: u16::from(code),
    }
}

fn networks(digits: &[u8]) -> PlmnBar {
    let mut list = PlmnBar::empty();
    for digit in digits {
        list.add(network(*digit));
    }
    list
}

fn areas(codes: &[u8]) -> AreaBar {
    let mut list = AreaBar::empty();
    for code in codes {
        list.add(area(*code));
    }
    list
}

// The last digits of the networks, from the oldest to the newest, as the digits of one number.
fn digits(list: &[Plmn]) -> u64 {
    let mut told: u64 = 0;
    for plmn in list {
        told = told.wrapping_mul(16).wrapping_add(u64::from(plmn.mnc2));
    }
    told
}

fn codes(list: &[Lai]) -> u64 {
    let mut told: u64 = 0;
    for area in list {
        told = told.wrapping_mul(16).wrapping_add(u64::from(area.lac));
    }
    told
}

#[test]
fn fifth_network_drops_the_oldest(rt: HostRuntime) {
    assert_eq!(rt; digits(networks(&[1, 2, 3, 4]).entries()), 0x1234);
    assert_eq!(rt; digits(networks(&[1, 2, 3, 4, 2]).entries()), 0x1234);
    assert_eq!(rt; digits(networks(&[1, 2, 3, 4, 5]).entries()), 0x2345);
    assert_eq!(rt; digits(networks(&[1, 2, 3, 4, 5, 1]).entries()), 0x3451);
}

#[test]
fn eleventh_area_drops_the_oldest(rt: HostRuntime) {
    let mut list = areas(&[1, 2, 3, 4, 5, 6, 7, 8, 9, 10]);
    list.add(area(1));
    assert_eq!(rt; codes(list.entries()), 0x12_3456_789a);
    list.add(area(11));
    assert_eq!(rt; codes(list.entries()), 0x23_4567_89ab);
    list.remove(area(11));
    assert_eq!(rt; codes(list.entries()), 0x2_3456_789a);
}

// What is left of three networks without one.
fn without(digit: u8) -> u64 {
    let mut list = networks(&[1, 2, 3]);
    list.remove(network(digit));
    digits(list.entries())
}

#[test]
fn others_stay_in_their_order_when_one_goes(rt: HostRuntime) {
    assert_eq!(rt; without(1), 0x23);
    assert_eq!(rt; without(2), 0x13);
    assert_eq!(rt; without(3), 0x12);
    assert_eq!(rt; without(4), 0x123);
    let mut list = PlmnBar::empty();
    list.remove(network(1));
    assert_eq!(rt; list.entries().len(), 0);
}

// An entry of an accept; none where the digit is 0.
fn entry(digit: u8) -> Option<Plmn> {
    if digit == 0 {
        None
    } else {
        Some(network(digit))
    }
}

// The equivalents that an accept makes where network 9 is forbidden.
fn equivalents(given: [u8; 5], accepted: u8) -> u64 {
    let [a, b, c, d, e] = given;
    let given = [entry(a), entry(b), entry(c), entry(d), entry(e)];
    let list = EquivalentPlmns::new(&given, &networks(&[9]), network(accepted));
    digits(list.entries())
}

#[test]
fn accepted_network_keeps_its_place_or_comes_last(rt: HostRuntime) {
    assert_eq!(rt; equivalents([1, 2, 3, 4, 5], 6), 0x12_3456);
    assert_eq!(rt; equivalents([1, 2, 3, 4, 5], 3), 0x1_2345);
    assert_eq!(rt; equivalents([1, 2, 0, 3, 4], 5), 0x1_2345);
    assert_eq!(rt; digits(EquivalentPlmns::empty().entries()), 0);
}

#[test]
fn forbidden_and_repeated_networks_are_left_out(rt: HostRuntime) {
    assert_eq!(rt; equivalents([9, 1, 9, 2, 3], 4), 0x1234);
    assert_eq!(rt; equivalents([1, 2, 1, 2, 1], 3), 0x123);
    assert_eq!(rt; equivalents([9, 1, 0, 2, 1], 9), 0x129);
}

// To which sides the cell of area 7 is barred.
fn barred(bars: &Bars, forbidden: &ForbiddenPlmns) -> (bool, bool) {
    (
        bars.to_circuit(forbidden, area(7)),
        bars.to_packet(forbidden, area(7)),
    )
}

#[test]
fn each_list_bars_its_side(rt: HostRuntime) {
    let none = Bars::none();
    let elsewhere = networks(&[2, 3]);
    assert_eq!(rt; barred(&none, &elsewhere), (false, false));
    assert_eq!(rt; barred(&none, &networks(&[1])), (true, true));
    let gprs = Bars {
        gprs: networks(&[1]),
        regional: areas(&[6]),
        roaming: areas(&[8]),
    };
    assert_eq!(rt; barred(&gprs, &elsewhere), (false, true));
    let regional = Bars {
        gprs: PlmnBar::empty(),
        regional: areas(&[7]),
        roaming: AreaBar::empty(),
    };
    assert_eq!(rt; barred(&regional, &elsewhere), (true, true));
    let roaming = Bars {
        gprs: PlmnBar::empty(),
        regional: AreaBar::empty(),
        roaming: areas(&[7]),
    };
    assert_eq!(rt; barred(&roaming, &elsewhere), (true, true));
}
