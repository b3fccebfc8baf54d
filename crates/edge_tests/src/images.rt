//! An image that was written by hand, and what is wrong with it once it is broken.
use crate::equal::same;
use bc_image::{ImageCause, ImageFault, ReadImage, scan};

/// One lane, one domain of two slots, one superpage, after one phase: slot 0 has the object 0.1 of two fields, which lies at
/// address 0, and slot 1 the number 7. The object's second field is 7.
const FIRST_PATH: [u8; 160] = [
    98, 99, 105, 109, 97, 103, 101, 49, 0, 0, 0, 0, 0, 0, 0, 1, 0, 0, 0, 0, 0, 0, 0, 1, 0, 0, 0, 0,
    0, 0, 0, 1, 0, 0, 0, 0, 0, 0, 0, 2, 0, 0, 0, 0, 0, 0, 0, 1, 0, 0, 0, 0, 0, 0, 0, 1, 0, 0, 0, 0,
    0, 0, 0, 4, 0, 0, 0, 0, 0, 0, 0, 3, 0, 0, 0, 0, 0, 0, 0, 1, 0, 0, 0, 0, 0, 0, 0, 0, 0, 0, 0, 0,
    0, 0, 0, 1, 0, 0, 0, 0, 0, 0, 0, 2, 0, 0, 0, 0, 0, 0, 0, 15, 0, 0, 0, 0, 0, 0, 0, 4, 0, 0, 0,
    0, 0, 0, 0, 1, 0, 0, 0, 0, 0, 0, 0, 0, 0, 0, 0, 0, 0, 2, 0, 2, 0, 0, 0, 0, 0, 0, 0, 0, 0, 0, 0,
    0, 0, 0, 0, 15,
];

/// The fault of bytes that are no image.
fn fault_of(rt: HostRuntime, bytes: &[u8; 160], count: usize) -> Option<ImageFault> {
    if count > 160 {
        return None;
    }
    match scan(rt.alloc(), &bytes[..count]) {
        Err(ReadImage::Fault(fault)) => Some(fault),
        _ => None,
    }
}

#[test]
fn image_of_first_path(rt: HostRuntime) {
    match scan(rt.alloc(), &FIRST_PATH) {
        Ok((listing, used)) => {
            same(&rt, used, 160);
            same(&rt, listing.version, 1);
            same(&rt, listing.setup.slots, 2);
            same(&rt, listing.setup.frames, 3);
            same(&rt, listing.phases, 1);
            assert!(rt; listing.holders.len() == 1 && listing.births.len() == 1);
            assert!(rt;
                listing.roots.len() == 2 && listing.roots[0] == 2 && listing.roots[1] == 15
            );
            assert!(rt; listing.cells.len() == 1);
            let cell = &listing.cells[0];
            same(&rt, cell.address.0, 0);
            assert!(rt; cell.head.serial == 1 && cell.head.fields == 2);
            assert!(rt; cell.fields.len() == 2 && cell.fields[0] == 0 && cell.fields[1] == 15);
        }
        Err(_fault) => assert!(rt; false),
    }
}

#[test]
fn broken_images(rt: HostRuntime) {
    let short = fault_of(rt, &FIRST_PATH, 159);
    assert!(rt;
        short
            == Some(ImageFault {
                at: 152,
                cause: ImageCause::Short
            })
    );
    let mut magic = FIRST_PATH;
    magic[0] = b'B';
    assert!(rt;
        fault_of(rt, &magic, 160)
            == Some(ImageFault {
                at: 0,
                cause: ImageCause::Magic
            })
    );
    let mut link = FIRST_PATH;
    link[111] = 4;
    assert!(rt;
        fault_of(rt, &link, 160)
            == Some(ImageFault {
                at: 104,
                cause: ImageCause::Link
            })
    );
}
