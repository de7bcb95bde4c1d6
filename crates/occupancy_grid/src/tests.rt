use crate::Grid;
use std::test::Fail;

#[test]
fn a_cell_is_new_once(rt: HostRuntime) -> Result<(), Fail> {
    let mut grid = Grid::new(rt.alloc())?;
    assert!(rt; !grid.has_page(129));
    grid.reserve(&[0, 129])?;
    assert!(rt; grid.has_page(129));
    assert!(rt; grid.set(129));
    assert!(rt; !grid.set(129));
    assert_eq!(rt; grid.count(), 1);
    let cells = grid.cells()?;
    assert_eq!(rt; cells.as_slice(), [129].as_slice());
    Ok(())
}

#[test]
fn cells_of_three_pages_ascend(rt: HostRuntime) -> Result<(), Fail> {
    let mut grid = Grid::new(rt.alloc())?;
    grid.reserve(&[2_097_151, 0, 32_768])?;
    assert!(rt; grid.set(2_097_151) && grid.set(32_768) && grid.set(32_767) && grid.set(0));
    assert!(rt; grid.test(32_767));
    assert!(rt; !grid.test(32_766));
    assert!(rt; !grid.test(65_536));
    let cells = grid.cells()?;
    assert_eq!(rt; cells.as_slice(), [0, 32_767, 32_768, 2_097_151].as_slice());
    Ok(())
}
