// Whole texts and their listings.
use listing::judges::Judge;
use std::test::Fail;

const TEXTS: [(&str, &str); 30] = [
    (
        "circle 3\nverdict\n",
        "worlds 8 agents 3 facts 3 quantities 1\n2 rivals 8 0 1\n",
    ),
    ("queue 12", "worlds 4096 agents 12 facts 12 quantities 1\n"),
    (
        "circle 1\nverdict",
        "worlds 2 agents 1 facts 1 quantities 1\n2 rivals 2 0 1\n",
    ),
    (
        "pairs 2 5\nverdict",
        "worlds 1 agents 2 facts 0 quantities 4\n2 unique 0 2 3 5 6\n",
    ),
    ("pairs 2 100", "worlds 2352 agents 2 facts 0 quantities 4\n"),
    ("pairs 1 129", "worlds 4096 agents 2 facts 0 quantities 4\n"),
    ("pairs 1 130\nverdict", "1 refused 20 0\n"),
    ("pairs 1 256", "1 refused 20 0\n"),
    ("pairs 1 257", "1 refused 19 0\n"),
    ("pairs 2 4", "1 refused 19 0\n"),
    ("pairs 0 5", "1 refused 19 0\n"),
    ("pairs 9 3", "1 refused 19 0\n"),
    ("pairs 65535 65535", "1 refused 19 0\n"),
    (
        "pairs 127 255\nverdict",
        "worlds 1 agents 2 facts 0 quantities 4\n2 unique 0 127 128 255 16256\n",
    ),
    ("circle 13", "1 refused 23 0\n"),
    ("circle 0", "1 refused 23 0\n"),
    ("queue 65535", "1 refused 23 0\n"),
    ("dates\nverdict", "1 refused 20 0\n"),
    ("dates 13 1", "1 refused 22 0\n"),
    ("dates 5 15 0 1", "1 refused 22 0\n"),
    ("dates 2 32", "1 refused 22 0\n"),
    ("dates 2 0", "1 refused 22 0\n"),
    (
        "dates 12 31\nverdict",
        "worlds 1 agents 2 facts 0 quantities 2\n2 unique 0 12 31\n",
    ),
    (
        "dates 5 15 5 16 5 19 6 17 6 18 7 14 7 16 8 14 8 15 8 17\nverdict",
        "worlds 10 agents 2 facts 0 quantities 2\n2 rivals 10 0 1\n",
    ),
    ("", "0 refused 17 0\n"),
    ("\n   \n\n", "0 refused 17 0\n"),
    (
        "\n\n circle 1 \n\nverdict\nverdict x\n",
        "worlds 2 agents 1 facts 1 quantities 1\n5 rivals 2 0 1\n6 refused 14 9\n",
    ),
    (
        "circle 2\ncircle 2\nverdict",
        "worlds 4 agents 2 facts 2 quantities 1\n2 refused 17 1\n3 rivals 4 0 1\n",
    ),
    ("verdict\ncircle 2", "1 refused 17 1\n"),
    ("\n\npairs 2\nverdict", "3 refused 14 8\n"),
];

#[test]
fn known_texts(rt: HostRuntime) -> Result<(), Fail> {
    let mut judge = Judge::new(rt.alloc())?;
    for (text, listing) in TEXTS {
        judge.judge(text.as_bytes());
        let printed = format!(in rt.alloc(); "{judge}")?;
        assert_eq!(rt; printed.as_str(), listing, "{}", text);
    }
    Ok(())
}

// A text of spaces alone is blank up to the most bytes that a text may have.
#[test]
fn longest_texts(rt: HostRuntime) -> Result<(), Fail> {
    let mut judge = Judge::new(rt.alloc())?;
    let spaces = vec![in rt.alloc(); b' '; 16385]?;
    judge.judge(spaces.as_slice());
    assert_eq!(rt;
        format!(in rt.alloc(); "{judge}")?.as_str(),
        "0 refused 10 0\n"
    );
    assert!(rt; spaces.len() == 16385);
    judge.judge(&spaces[0..16384]);
    assert_eq!(rt;
        format!(in rt.alloc(); "{judge}")?.as_str(),
        "0 refused 17 0\n"
    );
    Ok(())
}

// A line has at most 200 bytes, unless it is blank.
#[test]
fn longest_lines(rt: HostRuntime) -> Result<(), Fail> {
    let mut judge = Judge::new(rt.alloc())?;
    let text = format!(in rt.alloc();
        "circle 1\n{:>300}\n{:>200}\n{:>201}\n",
        "", "verdict", "verdict"
    )?;
    judge.judge(text.as_bytes());
    let listing = "worlds 2 agents 1 facts 1 quantities 1\n3 rivals 2 0 1\n4 refused 11 0\n";
    assert_eq!(rt; format!(in rt.alloc(); "{judge}")?.as_str(), listing);
    Ok(())
}
