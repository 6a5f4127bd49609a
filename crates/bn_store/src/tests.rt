use crate::{ImageError, SetRefused, Store};
use bn_types::Digest;
use std::alloc::Global;
use std::test::Fail;

/// An identity whose bytes are all one.
fn identity(byte: u8) -> Digest {
    Digest([byte; 32])
}

/// A store with word 0 of 64 identities set to 0.
fn full_store(alloc: Global) -> Result<Store, Fail> {
    let mut store = Store::empty(alloc).ok().ok_or("no memory")?;
    for byte in 0..64 {
        store.set(&identity(2 * byte), 0, 0).ok().ok_or("refused")?;
    }
    Ok(store)
}

#[test]
fn a_65th_identity_is_refused(rt: HostRuntime) -> Result<(), Fail> {
    let mut store = full_store(rt.alloc())?;
    assert_eq!(rt; store.set(&identity(1), 0, 7), Err(SetRefused::Full));
    assert_eq!(rt; store.set(&identity(1), 32, 7), Err(SetRefused::BadIndex));
    assert_eq!(rt; store.get(&identity(1), 0), 0);
    assert_eq!(rt; store.set(&identity(126), 31, 7), Ok(()));
    assert_eq!(rt; store.get(&identity(126), 31), 7);
    assert_eq!(rt; store.get(&identity(126), 32), 0);
    Ok(())
}

/// The stored image of one identity of 1s whose word 1 is 0x0203, by hand from the format.
fn small_image(alloc: Global) -> Result<Vec<u8>, Fail> {
    let mut text = Vec::from_slice(alloc, b"BNSTORE1")?;
    text.extend_from_slice(&[1, 0, 0, 0, 0, 0, 0, 0])?;
    text.extend_from_slice(&[1; 32])?;
    text.extend_from_slice(&[0, 0, 0, 0, 0, 0, 0, 0, 3, 2])?;
    text.extend_from_slice(&[0; 246])?;
    Ok(text)
}

#[test]
fn an_image_has_magic_count_identity_and_words(rt: HostRuntime) -> Result<(), Fail> {
    let want = small_image(rt.alloc())?;
    let mut store = Store::empty(rt.alloc()).ok().ok_or("no memory")?;
    store.set(&identity(1), 1, 0x0203).ok().ok_or("refused")?;
    let mut text = [0xff; 18_448];
    let len = store.image(&mut text);
    assert!(rt; text.get(..len) == Some(want.as_slice()));
    let again = Store::from_image(rt.alloc(), want.as_slice());
    assert_eq!(rt; again.ok().ok_or("refused")?.get(&identity(1), 1), 0x0203);
    Ok(())
}

#[test]
fn the_first_wrong_place_is_told(rt: HostRuntime) -> Result<(), Fail> {
    let good = small_image(rt.alloc())?;
    for (len, place, byte, at) in [
        (15, 0, b'B', 15),
        (304, 7, b'2', 7),
        (304, 8, 65, 8),
        (303, 0, b'B', 303),
        (304, 8, 2, 304),
        (304, 8, 0, 16),
    ] {
        let mut text = good.clone()?;
        text.truncate(len);
        if let Some(old) = text.get_mut(place) {
            *old = byte;
        }
        let answer = Store::from_image(rt.alloc(), text.as_slice());
        assert_eq!(rt;
            answer.err(),
            Some(ImageError::Malformed { at }),
            "at {len} {place}"
        );
    }
    Ok(())
}

#[test]
fn identities_strictly_ascend(rt: HostRuntime) -> Result<(), Fail> {
    for (second, at) in [(0, 304), (1, 304)] {
        let mut text = small_image(rt.alloc())?;
        text.extend_from_slice(&[second; 32])?;
        text.extend_from_slice(&[0; 256])?;
        if let Some(count) = text.get_mut(8) {
            *count = 2;
        }
        let answer = Store::from_image(rt.alloc(), text.as_slice());
        assert_eq!(rt; answer.err(), Some(ImageError::Malformed { at }));
    }
    Ok(())
}
