// Formulas of known puzzles, and at how many worlds they hold.
use evaluator::marks::{Marked, mark};
use model::questions::Model;
use model::refusals::Refusal;
use settings::cases::{CaseList, Cases};
use settings::hats::Hats;
use settings::pairs::Pair;
use settings::pairs::filling::fill_pairs;
use settings::sight::Sight;
use std::test::Fail;
use theory::node::Node;

const fn node(kind: u8, a: u16, b: u16, c: u16) -> Node {
    Node { kind, a, b, c }
}

// Agent 0, told the sum, knows that agent 1, told the product, does not know both numbers.
#[test]
fn sum_and_product(rt: HostRuntime) -> Result<(), Fail> {
    let mut list = vec![in rt.alloc(); Pair::new(0, 0); 4096]?;
    let count = fill_pairs(list.as_mut_slice(), 2, 100)?;
    assert!(rt; count <= list.len());
    let pairs = Cases::new(CaseList::check(&list[0..count])?);
    let nodes = [
        node(0, 0, 0, 0),
        node(6, 1, 0, 0),
        node(6, 1, 1, 0),
        node(4, 1, 2, 0),
        node(3, 3, 0, 0),
        node(5, 0, 4, 0),
    ];
    let mut work = vec![in rt.alloc(); 0; 8192]?;
    assert_eq!(rt;
        mark(&pairs, &nodes, 6, 5, work.as_mut_slice()),
        Ok(Marked {
            holding: 145,
            survivors: 2352,
        })
    );
    Ok(())
}

// One agent that does not see its own fact: the fact is true and the agent does not know it.
#[test]
fn an_unknown_truth(rt: HostRuntime) -> Result<(), Fail> {
    let circle = Hats::new(Sight::Circle, 1)?;
    let nodes = [
        node(1, 0, 0, 0),
        node(5, 0, 0, 0),
        node(3, 1, 0, 0),
        node(4, 0, 2, 0),
    ];
    let mut work = [0; 4];
    assert_eq!(rt;
        mark(&circle, &nodes, 4, 3, &mut work),
        Ok(Marked {
            holding: 1,
            survivors: 2,
        })
    );
    assert!(rt; work[0] == 0b10 && work[1] == 0 && work[2] == 0b11 && work[3] == 0b10);
    Ok(())
}

// The refusals in their order, and a node of a kind that is not there behind one that is.
#[test]
fn refused_marks(rt: HostRuntime) -> Result<(), Fail> {
    let circle = Hats::new(Sight::Circle, 2)?;
    let nodes = [node(1, 1, 0, 0), node(5, 2, 0, 0), node(7, 0, 0, 0)];
    let mut work = [0; 2];
    assert_eq!(rt;
        mark(&circle, &nodes, 0, 0, &mut work),
        Err(Refusal::NodeCount)
    );
    assert_eq!(rt;
        mark(&circle, &nodes, 4, 0, &mut work),
        Err(Refusal::NodeCount)
    );
    assert_eq!(rt;
        mark(&circle, &nodes, 1, 1, &mut work),
        Err(Refusal::NodeCount)
    );
    assert_eq!(rt;
        mark(&circle, &nodes, 3, 0, &mut work),
        Err(Refusal::BadNode(1))
    );
    assert_eq!(rt;
        mark(&circle, &nodes, 1, 0, &mut []),
        Err(Refusal::ShortWork)
    );
    assert_eq!(rt;
        mark(&circle, &nodes, 1, 0, &mut work),
        Ok(Marked {
            holding: 2,
            survivors: 4,
        })
    );
    Ok(())
}
