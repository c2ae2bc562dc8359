// Examples that are run.
use labelling::Labelling;
use labelling::sheet::Sheet;
use market::file::MarketFile;
use mesh::point::PricePoint;
use mesh::refusal::Refusal;
use std::test::Fail;

// Two goods, two traders: 39 bytes.
const SWAP: [u8; 39] = [
    1, 0, 1, 2, 2, 0, 1, 97, 2, 0, 1, 98, 3, 0, 2, 0, 2, 4, 0, 8, 0, 1, 0, 0, 0, 1, 0, 1, 4, 0, 8,
    0, 0, 0, 1, 0, 1, 0, 1,
];

#[test]
fn market_reads_back(rt: HostRuntime) -> Result<(), Fail> {
    let bytes = SWAP;
    let file = MarketFile::open(&bytes);
    let market = file.market()?;
    assert_eq!(rt; market.goods(), 2);
    assert_eq!(rt; market.traders(), 2);
    assert_eq!(rt; market.weight_sum(), 2);
    assert_eq!(rt; market.owned_in_all(1)?, 1);
    assert_eq!(rt; market.owned_in_all(2)?, 1);
    assert_eq!(rt; market.owned_in_all(3), Err(Refusal::NoSuchGood));
    assert!(rt; file.name(1)? == b"a".as_slice());
    assert!(rt; file.name(2)? == b"b".as_slice());
    assert_eq!(rt; file.name_place(1)?, 7);
    assert_eq!(rt; file.name_place(2)?, 11);
    assert_eq!(rt; file.name_place(3), Err(Refusal::NoSuchGood));
    assert!(rt; file.name(0).is_err());
    assert!(rt; file.name(3).is_err());
    Ok(())
}

#[test]
fn market_labels_points(rt: HostRuntime) -> Result<(), Fail> {
    let bytes = SWAP;
    let market = MarketFile::open(&bytes).market()?;
    let dear = PricePoint::new(2, 4, &[1, 3])?;
    assert_eq!(rt; market.excess(1, &dear)?, 2);
    assert_eq!(rt; market.excess(2, &dear)?, -2);
    assert_eq!(rt; market.excess(0, &dear), Err(Refusal::NoSuchGood));
    assert_eq!(rt; market.label(&dear), 2);
    assert_eq!(rt; market.label(&PricePoint::new(2, 4, &[2, 2])?), 1);
    let foreign = PricePoint::new(3, 4, &[2, 1, 1])?;
    assert_eq!(rt; market.label(&foreign), 0);
    assert_eq!(rt; market.excess(1, &foreign), Err(Refusal::NotAPricePoint));
    Ok(())
}

#[test]
fn price_points_at_their_limits(rt: HostRuntime) -> Result<(), Fail> {
    assert_eq!(rt;
        PricePoint::new(8, 128, &[16, 16, 16, 16, 16, 16, 16, 16])?.mesh(),
        128
    );
    assert!(rt;
        PricePoint::new(8, 129, &[17, 16, 16, 16, 16, 16, 16, 16]).err()
            == Some(Refusal::MeshOutOfRange)
    );
    assert_eq!(rt;
        PricePoint::new(4, 16_384, &[16_384, 0, 0, 0])?.price(1),
        16_384
    );
    assert!(rt;
        PricePoint::new(4, 16_385, &[16_385, 0, 0, 0]).err() == Some(Refusal::MeshOutOfRange)
    );
    assert!(rt; PricePoint::new(2, 0, &[0, 0]).err() == Some(Refusal::MeshOutOfRange));
    assert!(rt; PricePoint::new(1, 4, &[4]).err() == Some(Refusal::GoodsOutOfRange));
    assert!(rt;
        PricePoint::new(9, 4, &[4, 0, 0, 0, 0, 0, 0, 0, 0]).err() == Some(Refusal::GoodsOutOfRange)
    );
    assert!(rt; PricePoint::new(2, 4, &[4, 1]).err() == Some(Refusal::NotAPricePoint));
    assert!(rt; PricePoint::new(2, 4, &[4]).err() == Some(Refusal::NotAPricePoint));
    assert!(rt; PricePoint::new(2, 4, &[4_294_967_295, 5]).err() == Some(Refusal::NotAPricePoint));
    Ok(())
}

#[test]
fn levels_and_back(rt: HostRuntime) -> Result<(), Fail> {
    let levels = PricePoint::new(3, 6, &[1, 2, 3])?.levels();
    assert_eq!(rt; levels[0], 6);
    assert_eq!(rt; levels[1], 5);
    assert_eq!(rt; levels[2], 3);
    assert_eq!(rt; PricePoint::at_levels(3, 6, &[6, 5, 3])?.price(2), 2);
    assert!(rt; PricePoint::at_levels(3, 6, &[6, 3, 5]).err() == Some(Refusal::NotAPricePoint));
    assert!(rt; PricePoint::at_levels(3, 6, &[5, 5, 3]).err() == Some(Refusal::NotAPricePoint));
    Ok(())
}

#[test]
fn sheets(rt: HostRuntime) -> Result<(), Fail> {
    assert!(rt; Sheet::new(0, &[1]).err() == Some(Refusal::SheetMeshOutOfRange));
    assert!(rt; Sheet::new(65, &[1; 66]).err() == Some(Refusal::SheetMeshOutOfRange));
    assert!(rt; Sheet::new(4, &[1, 1, 1, 2]).err() == Some(Refusal::SheetLength));
    assert!(rt; Sheet::new(4, &[1, 1, 1, 2, 2, 2]).err() == Some(Refusal::SheetLength));
    assert_eq!(rt;
        Sheet::new(64, &[7; 65])?.label(&PricePoint::new(2, 64, &[0, 64])?),
        7
    );
    let sheet = Sheet::new(4, &[9, 1, 1, 2, 255])?;
    assert_eq!(rt; sheet.label(&PricePoint::new(2, 4, &[4, 0])?), 9);
    assert_eq!(rt; sheet.label(&PricePoint::new(2, 4, &[1, 3])?), 2);
    assert_eq!(rt; sheet.label(&PricePoint::new(2, 4, &[0, 4])?), 255);
    assert_eq!(rt; sheet.label(&PricePoint::new(2, 8, &[4, 4])?), 0);
    assert_eq!(rt; sheet.label(&PricePoint::new(3, 4, &[4, 0, 0])?), 0);
    Ok(())
}
