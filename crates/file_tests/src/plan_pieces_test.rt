//! Rows by hand: which pieces make a file longer.
use lays_kept::Piece;
use plan_pieces::growth;
use std::alloc::{AllocError, Global};
use std::test::Fail;

/// A piece: where it stands, how long it is, and of a page also its kind and the first byte of its content.
type Row = (u64, usize, u8, u8);

/// What pieces are.
fn shown(alloc: Global, pieces: &[Piece]) -> Result<Vec<Row>, AllocError> {
    let mut rows = Vec::new(alloc);
    for piece in pieces {
        let bytes = piece.bytes.as_slice();
        if bytes.len() == 512 {
            rows.push((piece.at, 512, bytes[497], bytes[0]))?;
        } else {
            rows.push((piece.at, bytes.len(), 0, 0))?;
        }
    }
    Ok(rows)
}

#[test]
fn files_grow_by_regions(rt: HostRuntime) -> Result<(), Fail> {
    let rows: [(u64, u64, &[Row]); 7] = [
        (271_360, 271_360, &[]),
        (200_000, 271_360, &[(271_359, 1, 0, 0)]),
        (
            271_360,
            525_312,
            &[(271_360, 512, 0x84, 0), (525_311, 1, 0, 0)],
        ),
        (
            271_360,
            779_264,
            &[
                (271_360, 512, 0x84, 0),
                (525_311, 1, 0, 0),
                (525_312, 512, 0x84, 0),
                (779_263, 1, 0, 0),
            ],
        ),
        (
            271_424,
            779_264,
            &[
                (525_311, 1, 0, 0),
                (525_312, 512, 0x84, 0),
                (779_263, 1, 0, 0),
            ],
        ),
        (
            2_049_024,
            2_302_976,
            &[
                (2_049_024, 512, 0x84, 0),
                (2_049_536, 512, 0x83, 0xff),
                (2_302_975, 1, 0, 0),
            ],
        ),
        (
            32_523_264,
            32_777_216,
            &[
                (32_523_264, 512, 0x84, 0),
                (32_523_776, 512, 0x83, 0xff),
                (32_524_288, 512, 0x82, 0xff),
                (32_777_215, 1, 0, 0),
            ],
        ),
    ];
    for (eof, end, wanted) in rows {
        assert!(rt; 17_408 < eof && eof <= end && end <= 2_080_392_192);
        assert!(rt; (end - 17_408) % 253_952 == 0);
        let pieces = growth(rt.alloc(), eof, end)?;
        let found = shown(rt.alloc(), pieces.as_slice())?;
        assert_eq!(rt; found.as_slice(), wanted, "from {eof} to {end}");
    }
    Ok(())
}
