// Small settings, by example.
use model::questions::Model;
use model::refusals::Refusal;
use settings::cases::{CaseList, Cases};
use settings::dates::Date;
use settings::hats::Hats;
use settings::pairs::Pair;
use settings::pairs::filling::fill_pairs;
use settings::sight::Sight;
use settings::told::Told;
use std::test::Fail;

#[test]
fn three_in_a_circle_and_in_a_queue(rt: HostRuntime) -> Result<(), Fail> {
    let circle = Hats::new(Sight::Circle, 3)?;
    assert!(rt; !circle.distinguishes(1, 0b101, 0b111) && circle.distinguishes(1, 0b101, 0b001));
    let queue = Hats::new(Sight::Queue, 3)?;
    assert!(rt; !queue.distinguishes(1, 0b101, 0b011) && queue.distinguishes(1, 0b101, 0b100));
    assert!(rt; queue.quantity(0, 0b101) == 2 && queue.fact(2, 0b101) && !queue.fact(1, 0b101));
    assert!(rt; Hats::new(Sight::Circle, 13).is_err());
    Ok(())
}

#[test]
fn pairs_from_two_to_seven(rt: HostRuntime) -> Result<(), Fail> {
    let mut list = [Pair::new(0, 0); 8];
    let mut short = [Pair::new(0, 0); 3];
    assert!(rt; fill_pairs(&mut short, 2, 7).err() == Some(Refusal::ShortList));
    assert!(rt; fill_pairs(&mut list, 2, 7)? == 4);
    let pairs = Cases::new(CaseList::check(&list[..4])?);
    assert!(rt; !pairs.distinguishes(0, 2, 3) && pairs.distinguishes(1, 2, 3));
    assert!(rt;
        pairs.quantity(0, 3) == 3 && pairs.quantity(1, 3) == 4 && pairs.quantity(3, 3) == 12
    );
    Ok(())
}

#[test]
fn three_dates(rt: HostRuntime) -> Result<(), Fail> {
    let list = [Date::new(5, 15)?, Date::new(5, 16)?, Date::new(6, 15)?];
    let dates = Cases::new(CaseList::check(&list)?);
    assert!(rt;
        !dates.distinguishes(0, 0, 1)
            && dates.distinguishes(1, 0, 1)
            && !dates.distinguishes(1, 0, 2)
    );
    assert!(rt; dates.width() == 3 && !dates.survives(3) && Date::new(2, 32).is_err());
    assert!(rt; CaseList::check(&list[..0]).is_err());
    Ok(())
}
