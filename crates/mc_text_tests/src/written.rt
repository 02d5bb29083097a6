use crate::equal::is_equal;
use mc_lines::Declarations;
use mc_net::{Tail, read_text};
use mc_net_text::{NoText, write_net};
use std::alloc::Global;

// The networks of the examples, with single spaces and without comments, and one with every line.
const NETWORKS: &[&[u8]] = &[
    b"media 1\ncodec g711\ncodec g729\ndev alice g711 g729\nfeat forward\nfeat screen\ndev bob g729\ndev carol g729 g711\nchan audio alice a forward in\nchan audio forward desk bob a\nchan audio forward out screen in\nchan audio screen out carol a\nbegin\n",
    b"media 1\ncodec g711\ncodec g729\ndev alice g711 g729\ndev bob g729\nchan audio alice a bob a\nbegin\n",
    b"media 1\ncodec opus\ncodec g722\ncodec g711\ndev alice opus g711\ndev bob g722 g711\nchan audio bob line1 alice line1\nbegin\n",
    b"media 1\ncodec g711\ndev alice 4294967295 g711\ndev bob g711\nchan audio alice a bob a\nbegin\n",
    b"media 1\ncodec g711\ncodec g729\ndev caller g711 g729\ndev callee g729\ndev voice g711\nfeat pc\nchan audio caller a pc a\nchan audio pc c callee a\nchan audio pc v voice a\nprog pc talk prompt\nstate talk\nlink a c\ngoal v close\nwhen told out prompt\nstate prompt\nlink a v\ngoal c hold\nwhen told paid talk\nbegin\n",
    b"media 1\ncodec g711\ncodec g729\ndev alice g711 g729\ndev bob g729 g711\nchan audio alice a bob a\nbegin\n",
    b"media 1\ndev door\nfeat guard\nchan audio door a guard a\nprog guard away back\nstate away\ngoal a close\nwhen is a closed back\nstate back\ngoal a close\nwhen is a closed away\nbegin\n",
    b"media 1\ncodec g711\ndev alice g711\nfeat north\nfeat south\nchan audio alice a north in\nchan audio north out south in\nchan audio south out north back\nbegin\n",
    b"media 2\ncodec g711\ncodec g729\ndev alice g711 g729\nsend alice g729\ndev bob g729 g711\nchan audio alice a bob a\nbegin\n",
    b"media 1\ncodec g711\ndev alice g711\ndev bob g711\ndev carol g711\nfeat pbx\nchan audio alice a pbx a\nchan audio bob a pbx b\nchan audio carol a pbx c\nprog pbx ab ac\nstate ab\nlink a b\ngoal c hold\nwhen told swap ac\nstate ac\nlink a c\ngoal b hold\nwhen told swap ab\nbegin\n",
    b"media 1\ncodec g711\ndev clerk g711\ndev caller g711\ndev expert g711\nfeat pbx\nchan audio clerk a pbx clerk\nchan audio caller a pbx caller\nchan audio expert a pbx expert\nbegin\n",
    b"media 1\ncodec vp8\ncodec h264\ncodec av1\ndev desk av1 vp8 h264\ndev room h264 vp8\nchan video room cam desk cam\nbegin\n",
    b"media 1\ncodec g711\ncodec g729\ndev alice g711 g729\ndev bob 7 g729\nfeat pbx\nchan audio alice a pbx west\nchan audio pbx east bob a\nalso video w2 v\nchan video alice v pbx view\nprog pbx talk wait\nstate talk\nlink west east\ngoal w2 hold\ngoal view close\nwhen told park wait\nstate wait\ngoal west hold\ngoal east open\ngoal w2 close\ngoal view hold\nwhen is west closed talk\nbegin\n",
];

// The text of what was declared.
fn written(alloc: Global, parts: &Declarations) -> Result<Vec<u8>, NoText> {
    write_net(alloc, &parts.names, &parts.plan, &parts.blocks)
}

// A text that is read and written again, where it is one.
fn written_again(alloc: Global, text: &[u8]) -> Option<Vec<u8>> {
    let Ok((reader, _)) = read_text(alloc, text, Tail::Nothing) else {
        return None;
    };
    let parts = reader.into_parts();
    let again = written(alloc, &parts);
    drop(parts);
    again.ok()
}

#[test]
fn networks_are_written_as_they_were(rt: HostRuntime) {
    for text in NETWORKS {
        let again = written_again(rt.alloc(), *text);
        is_equal(
            &rt,
            &again.as_ref().map(|again| again.as_slice()),
            &Some(*text),
        );
    }
}
