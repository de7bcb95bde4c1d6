ghost use Rattle.std.specs.Prelude.{⊤, ◌≡◌, ◌<◌, ℕ, [], ◌∷◌, IfOk, length};
ghost use Rattle.batch_filing.specs.Filings.{FilingValue};
ghost use Rattle.list_words.specs.Filing.{Filing as FilerValue};

use crate::Filing;
use cube_math::{Batch, Cube, Point};
use list_words::{Answer, Filed, Filings, Grant, ListsOf, PlainFiler, SharedFiler};
use std::alloc::{AllocError, Global};
use std::marker::Brand;
use std::sync::ledger::{Blank, Ledger};
use std::test::Fail;
use step_count::Steps;

/// Lists in which each item finds a slot of its own number.
struct Shelves;

impl ListsOf for Shelves {
    ghost name = { λ _. [] };

    ghost chunks = { λ _. 0 };
}

/// A filer of shelves.
#[derive(Drop)]
struct Porter {
    plain: PlainFiler,
}

impl Filings for Porter {
    ghost filing = { λ f. f.plain };

    fn answers(&self) -> &[Answer] {
        self.plain.answers()
    }
}

impl SharedFiler for Porter {
    type Lists = Shelves;

    ghost walked = { λ _. 0 };

    ghost shows = { λ _ _ _ _. ⊤ };

    fn file<L: Ledger>(
        &mut self,
        _lists: &Shelves,
        list: u32,
        item: u32,
        steps: &mut Steps<L>,
    ) -> Filed {
        steps.tick();
        let filed = Filed::At {
            chunk: list,
            slot: item,
        };
        self.plain.record(list, item, filed);
        filed
    }
}

/// A filer that may claim two slots of list 1 and one of list 0.
fn new_porter(alloc: Global) -> Result<Porter, AllocError>
    ensures { IfOk result (λ f. f.plain ≡ record { name = []; birth = 0; left = record { list = 1; n = 2 } ∷ record { list = 0; n = 1 } ∷ []; answers = [] }) }
{
    let grants = vec![in alloc; Grant { list: 1, n: 2 }, Grant { list: 0, n: 1 }]?;
    let answers = Vec::with_capacity(alloc, 3)?;
    Ok(Porter {
        plain: PlainFiler::new(0, grants, answers),
    })
}

/// A batch of three points.
fn three_points(alloc: Global) -> Result<Batch, Fail>
    ensures { IfOk result (λ b. length b.points ≡ 3) }
{
    let cube = Cube::new(0, 0, 0, 12).ok_or("fits")?;
    let mut points = Vec::new(alloc);
    for x in 0..3i32 {
        points.push(Point::new(x, 0, 0, 0, 0, 0))?;
    }
    let Ok(batch) = Batch::new(7, points, &cube, 100) else {
        return Err("no batch".into());
    };
    if batch.points().len() == 3 {
        Ok(batch)
    } else {
        Err("not three".into())
    }
}

/// The batch's items from number 10 on, the first and the last of which belong in list 1.
fn three_items(alloc: Global) -> Result<Filing<Porter>, Fail>
    ensures whole { IfOk result (λ f. (length f.batch.points ≡ 3) × (f.tried ≡ 0)) }
    ensures name { IfOk result (λ f. f.filer.plain.name ≡ []) }
{
    let batch = three_points(alloc)?;
    let lists = vec![in alloc; 1u32, 0, 1]?;
    Ok(Filing::new(batch, 10, 4, lists, new_porter(alloc)?))
}

/// Files all three items.
fn file_three<L: Ledger>(filing: &mut Filing<Porter>, blank: Blank)
    requires whole { (length filing.old.batch.points ≡ 3) × (filing.old.tried ≡ 0) }
    requires name { filing.old.filer.plain.name ≡ [] }
    requires ledger { blank.name ≡ L.name }
    requires parts { blank.parts ≡ L.parts }
    requires some { 0 < blank.parts }
{
    let mut steps: Steps<L> = Steps::new(blank);
    filing.file_next(&Shelves, &mut steps);
    filing.file_next(&Shelves, &mut steps);
    filing.file_next(&Shelves, &mut steps);
}

#[test]
fn a_new_filing_has_its_whole_batch_left(rt: HostRuntime) -> Result<(), Fail> {
    let filing = three_items(rt.alloc())?;
    assert_eq!(rt; filing.batch().input(), 7);
    assert_eq!(rt; filing.first(), 10);
    assert_eq!(rt; filing.loader(), 4);
    assert_eq!(rt; filing.lists(), [1, 0, 1].as_slice());
    assert_eq!(rt; filing.left(), 3);
    assert_eq!(rt; filing.answers().len(), 0);
    assert_eq!(rt; filing.filer().answers().len(), 0);
    Ok(())
}

#[test]
fn items_are_filed_in_order_each_in_its_list(rt: HostRuntime) -> Result<(), Fail> {
    let mut filing = three_items(rt.alloc())?;
    file_three::<Brand>(&mut filing, Blank::new(1));
    assert_eq!(rt; filing.left(), 0);
    let expected = [(1, 10), (0, 11), (1, 12)];
    assert_eq!(rt; filing.answers().len(), 3);
    for (answer, (list, item)) in filing.answers().iter().zip(expected.iter()) {
        assert_eq!(rt; answer.list, *list);
        assert_eq!(rt; answer.item, *item);
        assert_eq!(rt;
            answer.filed,
            Filed::At {
                chunk: *list,
                slot: *item
            }
        );
    }
    let (batch, filer) = filing.into_parts();
    assert_eq!(rt; batch.points().len(), 3);
    assert_eq!(rt; filer.answers().len(), 3);
    Ok(())
}
