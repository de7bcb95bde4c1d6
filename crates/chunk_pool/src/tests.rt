use crate::Pool;
use std::test::Fail;

#[test]
fn least_number_comes_first_and_none_where_none_is_free(rt: HostRuntime) -> Result<(), Fail> {
    let mut pool = Pool::new(rt.alloc(), 2)?;
    assert_eq!(rt; pool.take(), Some(0));
    assert_eq!(rt; pool.take(), Some(1));
    let None = pool.take() else {
        return Err("a third of two numbers".into());
    };
    pool.give(0);
    assert_eq!(rt; pool.free(), 1);
    assert_eq!(rt; pool.take(), Some(0));
    Ok(())
}

#[test]
fn pool_of_no_numbers_gives_none(rt: HostRuntime) -> Result<(), Fail> {
    let mut pool = Pool::new(rt.alloc(), 0)?;
    assert_eq!(rt; pool.take(), None);
    assert_eq!(rt; pool.free(), 0);
    Ok(())
}
