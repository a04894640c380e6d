// What is answered to a line: 0 and 0 where it is accepted, else the number and column that a listing prints. The tables stay in numbers, to be read beside the rules.
use lines::dates::DateList;
use lines::faults::LineFault;
use lines::settings::read_setting;
use std::test::Fail;
use text::calls::read_call;

const SETTINGS: [(&str, u16, usize); 66] = [
    ("pairs 2 100", 0, 0),
    ("  pairs  2   5  ", 0, 0),
    ("pairs2 5", 0, 0),
    ("pairs 00002 5", 0, 0),
    ("pairs 2 65535", 0, 0),
    ("circle 3", 0, 0),
    ("circle3", 0, 0),
    ("circle 13", 0, 0),
    ("queue 4", 0, 0),
    ("dates", 0, 0),
    ("dates 5 15", 0, 0),
    ("dates 99 0 13 32", 0, 0),
    // a line that ends too soon
    ("pairs", 14, 6),
    ("pairs ", 14, 7),
    ("pairs 2", 14, 8),
    ("pairs 2  ", 14, 10),
    ("circle", 14, 7),
    ("queue ", 14, 7),
    ("dates 5", 14, 8),
    ("dates 5 15 6", 14, 13),
    ("dates 5 15 6 ", 14, 14),
    // a token out of place
    ("pairs x 5", 14, 7),
    ("pairs - 5", 14, 7),
    ("pairs 2 5 7", 14, 11),
    ("pairs 2 5 x", 14, 11),
    ("pairs 2 V", 14, 9),
    ("circle x", 14, 8),
    ("circle -3", 14, 8),
    ("circle 3.", 14, 9),
    ("circle 3 4", 14, 10),
    ("circle 3 ~&|().=-KV/", 14, 10),
    ("circle circle 3", 14, 8),
    ("queue K", 14, 7),
    ("queue 4 verdict", 14, 9),
    ("dates x", 14, 7),
    ("dates 5/15", 14, 8),
    ("dates 5 x", 14, 9),
    ("dates 5 15 (", 14, 12),
    // a number that is too large or too long
    ("pairs 2 65536", 13, 9),
    ("pairs 2 100000", 13, 9),
    ("pairs 000002 5", 13, 7),
    ("pairs 99999 x", 13, 7),
    ("circle 70000", 13, 8),
    ("dates 5 123456", 13, 9),
    ("123456", 13, 1),
    ("  70000 circle", 13, 3),
    // out of place, and too large: the lower number
    ("pairs 2 5 123456", 13, 11),
    // a byte that starts no token
    ("Pairs 2 5", 12, 1),
    ("pairs 2,5", 12, 8),
    ("pairs 2 5 %", 12, 11),
    ("circle\t3", 12, 7),
    ("\tcircle 3", 12, 1),
    ("circle 3\r", 12, 9),
    ("circle A 3", 12, 8),
    ("circle 3 é", 12, 10),
    ("dates 5 15 6 #", 12, 14),
    // a first token that is no setting's word
    ("pair 2 5", 17, 1),
    ("pairss 2 5", 17, 1),
    ("  pear 2", 17, 3),
    ("verdict", 17, 1),
    ("say - f0", 17, 1),
    ("3 circle", 17, 1),
    ("(circle 3)", 17, 1),
    ("K circle", 17, 1),
    ("V", 17, 1),
    ("circlek 3 %", 17, 1),
];

const CALLS: [(&str, u16, usize); 20] = [
    ("verdict", 0, 0),
    ("  verdict ", 0, 0),
    ("verdict 1", 14, 9),
    ("verdict verdict", 14, 9),
    ("verdict.", 14, 8),
    ("verdict  )", 14, 10),
    ("verdict 65536", 13, 9),
    ("verdict 000000", 13, 9),
    ("verdict,", 12, 8),
    ("verdict \t", 12, 9),
    ("Averdict", 12, 1),
    ("verdicts", 17, 1),
    ("verdic", 17, 1),
    ("Verdict", 17, 1),
    ("Kverdict", 17, 1),
    ("circle 3", 17, 1),
    ("pairs 2 5", 17, 1),
    ("dates", 17, 1),
    ("   x", 17, 4),
    ("0", 17, 1),
];

// The two numbers of a fault, as the tables have them.
fn shown(fault: LineFault) -> (u16, usize) {
    (fault.number(), fault.column())
}

#[test]
fn setting_lines(rt: HostRuntime) -> Result<(), Fail> {
    let mut dates = DateList::new(rt.alloc())?;
    for (line, number, column) in SETTINGS {
        let answer = match read_setting(line.as_bytes(), &mut dates) {
            Ok(_) => (0, 0),
            Err(fault) => shown(fault),
        };
        assert_eq!(rt; answer, (number, column), "{}", line);
    }
    Ok(())
}

#[test]
fn call_lines(rt: HostRuntime) {
    for (line, number, column) in CALLS {
        let answer = match read_call(line.as_bytes()) {
            Ok(_) => (0, 0),
            Err(fault) => shown(fault),
        };
        assert_eq!(rt; answer, (number, column), "{}", line);
    }
}
