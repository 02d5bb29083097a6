// Which codec a selector says, and how many a list has.
use crate::equal::is_equal;
use mc_signal::{CodecList, Descriptor, ListFull, Selector, Sender, answers, choose};

// A list of these codecs, as far as they are new and fit.
fn list_of(codecs: &[u8]) -> CodecList {
    let mut list = CodecList::none();
    for codec in codecs {
        if *codec < 64 && !list.has(*codec) {
            let _ = list.add(*codec);
        }
    }
    list
}

fn descriptor(origin: u32, version: u32, codecs: &[u8]) -> Descriptor {
    Descriptor {
        origin,
        version,
        addr: 7,
        port: 5001,
        codecs: list_of(codecs),
    }
}

#[test]
fn choose_takes_first_offered_that_can_be_sent(rt: HostRuntime) {
    let table: [(&[u8], &[u8], Option<u8>); 5] = [
        (&[1, 2, 3], &[3, 2], Some(2)),
        (&[3, 1], &[1, 3], Some(3)),
        (&[1, 2], &[5, 4], None),
        (&[], &[1], None),
        (&[1], &[], None),
    ];
    for (offered, able, want) in table {
        let sender = Sender {
            addr: 9,
            port: 5002,
            codecs: list_of(able),
        };
        let selector = choose(descriptor(4, 6, offered), &sender);
        let expected = Selector {
            origin: 4,
            version: 6,
            addr: 9,
            port: 5002,
            codec: want,
        };
        is_equal(&rt, &selector, &expected);
    }
}

#[test]
fn selector_answers_one_version_of_one_descriptor(rt: HostRuntime) {
    let sender = Sender {
        addr: 9,
        port: 5002,
        codecs: list_of(&[1]),
    };
    let selector = choose(descriptor(4, 6, &[1, 2]), &sender);
    for (origin, version, want) in [(4, 6, true), (4, 7, false), (5, 6, false)] {
        is_equal(
            &rt,
            &answers(&selector, &descriptor(origin, version, &[])),
            &want,
        );
    }
}

#[test]
fn ninth_codec_does_not_fit(rt: HostRuntime) {
    let full = [10, 11, 12, 13, 14, 15, 16, 17];
    let mut list = list_of(&full);
    is_equal(&rt, &list.as_slice(), &&full[..]);
    if !list.has(18) {
        is_equal(&rt, &list.add(18), &Err(ListFull));
    }
    is_equal(&rt, &list.as_slice(), &&full[..]);
    assert!(rt; list.has(17) && !list.has(18));
}
