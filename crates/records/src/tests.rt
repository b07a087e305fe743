// C's columns read as rows and written back, at places worked out by hand.
use super::*;

// Column k, counted from 0, has 10000 k + i at place i.
fn numbered() -> [u64; COLUMNS] {
    let mut columns = [0; COLUMNS];
    for (at, figure) in columns.iter_mut().enumerate() {
        *figure = (at / 512 * 10000 + at % 512) as u64;
    }
    columns
}

#[test]
fn each_row_of_the_columns(rt: HostRuntime) {
    for (i, plant) in plants_of(&numbered()).iter().enumerate() {
        let i = i as u64;
        assert_eq!(rt; plant.submarket, i);
        assert_eq!(rt; plant.number, 10000 + i);
        assert_eq!(rt; plant.guarantee, 20000 + i);
        assert_eq!(rt; plant.loss, 30000 + i);
        assert_eq!(rt; plant.availability, 40000 + i);
    }
}

#[test]
fn two_rows_put(rt: HostRuntime) {
    let first = Plant {
        submarket: 1,
        number: 7,
        guarantee: 500,
        loss: 970000,
        availability: 910000,
    };
    let second = Plant {
        submarket: 4,
        number: 9,
        guarantee: 800,
        loss: 980000,
        availability: 920000,
    };
    let mut columns = numbered();
    put_plants(&mut columns, &[first, second]);
    assert_eq!(rt; &columns[..3], [1, 4, 2].as_slice());
    assert_eq!(rt; &columns[511..515], [511, 7, 9, 10002].as_slice());
    assert_eq!(rt; &columns[1023..1027], [10511, 500, 800, 20002].as_slice());
    assert_eq!(rt;
        &columns[1535..1539],
        [20511, 970000, 980000, 30002].as_slice()
    );
    assert_eq!(rt;
        &columns[2047..2051],
        [30511, 910000, 920000, 40002].as_slice()
    );
    assert_eq!(rt; columns[2559], 40511);
}
