//! Tests of the region of cells, in a crate of their own: a crate with tests is proved twice.
#![tactic(auto)]

#[cfg(test)]
mod tests {
    use cell_pool::Pool;
    use std::test::Fail;

    #[test]
    fn cells_are_found_by_slot_and_name(rt: HostRuntime) -> Result<(), Fail> {
        let mut pool = Pool::make(rt.alloc(), 4, 0u8)?;
        assert_eq!(rt; pool.live_chunks(), 0);
        let long = pool.take(7, 33).expect(&rt, "three chunks of four");
        assert_eq!(rt; pool.live_chunks(), 3);
        assert!(rt; pool.take(8, 17).is_err());
        let short = pool.take(8, 1).expect(&rt, "the last chunk");
        assert_eq!(rt; pool.live_chunks(), 4);
        for (offset, there) in [(0, true), (16, true), (32, true), (33, false)] {
            assert_eq!(rt; pool.put(long, 7, offset, 5), there, "at {offset}");
            assert_eq!(rt; pool.get(long, 7, offset).is_some(), there, "at {offset}");
        }
        assert_eq!(rt; pool.get(long, 7, 16), Some(5));
        assert_eq!(rt; pool.get(long, 7, 15), Some(0));
        assert_eq!(rt; pool.get(long, 8, 0), None);
        assert_eq!(rt; pool.get(short, 8, 0), Some(0));
        Ok(())
    }

    #[test]
    fn chunks_given_back_serve_again(rt: HostRuntime) -> Result<(), Fail> {
        let mut pool = Pool::make(rt.alloc(), 3, 0u8)?;
        let Ok(first) = pool.take(7, 48) else {
            return Err(Fail::from("three chunks of three"));
        };
        pool.give(first, 7);
        assert_eq!(rt; pool.live_chunks(), 0);
        let again = pool
            .take(9, 40)
            .expect(&rt, "the chunks that were given back");
        assert_eq!(rt; pool.live_chunks(), 3);
        assert_eq!(rt; pool.get(again, 9, 39), Some(0));
        assert_eq!(rt; pool.get(first, 7, 0), None);
        Ok(())
    }
}
