// A store made from two texts.
ghost use Rattle.std.specs.Prelude.{◌≡◌, ◌≢◌, ◌⊎◌, ◌≤◌, ◌↔◌, [], length, OnOk, IfOk, IfErr, IfSome};
ghost use Rattle.std.specs.Io.KnownBytes.{Appends};
ghost use Rattle.std.specs.List.Sorted.{IsStrictlyIncreasing};
ghost use lib.Chars.{codes};
ghost use Rattle.dimacs.specs.Calling.{KeepsText};
ghost use Rattle.dimacs.specs.Landmarks.{AreNodes};
ghost use Rattle.disk.specs.Moments.{StaysSame};
ghost use Rattle.printing.specs.Counting.{writer_of};
ghost use Rattle.printing.specs.Failing.{CountsFirst, CountsSecond, LeavesUnwritten};
ghost use Rattle.printing.specs.Replied.{number_line};
ghost use Rattle.printing.specs.Writers.{KeepsWriter};
ghost use Rattle.roadnet.specs.Net.{IsRoomFor, most_landmarks};
ghost use Rattle.store.specs.Migrating.{room_of, roomed};
ghost use Rattle.storetexts.specs.Created.{with_landmarks, IsNetworkOf, IsRefusedMarking, IsRefusedPlan, IsRefusedNetwork, IsOfNetwork, IsOfMaking};
ghost use Rattle.storetexts.specs.Created.{IsRefusedCreate, IsNewStore, IsNewStoreOf};
ghost use Rattle.storetexts.specs.Refused.{CountsDevice, IfDone, IfNoDevice, IfOfTexts, IfNotEmpty, IfNoMemory};

use dimacs::{Text, read_gr, read_ss};
use disk::Disk;
use machine::Replied;
use printing::{CountedWriter, Failed, of_text, put_reply};
use roadnet::{Command, MOST_LANDMARKS, Network, Refusal};
use std::alloc::Global;
use std::io::Write;
use store::{create, with_given_room};

const NETWORK: u8 = 0;

const LANDMARKS: u8 = 1;

/// The network, which has no landmark, with these ascending nodes as its landmarks. It fails with 27 for more than 1,000 landmarks, and with 11 for lack of
/// memory.
fn with_landmarks(network: Network, landmarks: &[u32]) -> Result<Network, Refusal>
    requires bare { network.landmarks ≡ [] }
    requires ascending { IsStrictlyIncreasing landmarks.now }
    requires nodes { AreNodes network.nodes landmarks.now }
    ensures marked { IfOk result (λ marked. marked ≡ with_landmarks network landmarks.now) }
    ensures few { OnOk result (length landmarks.now ≤ most_landmarks) }
    ensures refused { IfErr result (IsRefusedMarking landmarks.now) }
{
    if landmarks.len() > MOST_LANDMARKS {
        return Err(Refusal::TooManyLandmarks);
    }
    let mut marked = network;
    for node in landmarks {
        marked.apply(Command::Mark {
            node: u64::from(*node),
        })?;
    }
    Ok(marked)
}

/// The network, which has no landmark, with these ascending nodes as its landmarks, and with room for so many arcs, if a number is given. It fails with 27
/// for more than 1,000 landmarks, with 11 for lack of memory, and then with 9 for a room below the number of arcs or above 67,108,864.
fn planned(network: Network, landmarks: &[u32], room: Option<u64>) -> Result<Network, Refusal>
    requires bare { network.landmarks ≡ [] }
    requires ascending { IsStrictlyIncreasing landmarks.now }
    requires nodes { AreNodes network.nodes landmarks.now }
    ensures made { IfOk result (λ made. made ≡ roomed (with_landmarks network landmarks.now) room) }
    ensures few { OnOk result (length landmarks.now ≤ most_landmarks) }
    ensures fits { OnOk result (IsRoomFor network (room_of network room)) }
    ensures refused { IfErr result (IsRefusedPlan network landmarks.now room) }
{
    let marked = match with_landmarks(network, landmarks) {
        Ok(marked) => marked,
        Err(refusal) => return Err(refusal),
    };
    match with_given_room(marked, room) {
        Ok(made) => Ok(made),
        Err(refused) => Err(refused.0),
    }
}

/// The network of a `.gr` text, with the landmarks of a `.ss` text, and with room for so many arcs, if a number is given. Both texts are read completely,
/// the network first, and the first fault is the one reported: `which` is 0 for the network and 1 for the landmarks. Nodes of the landmarks are judged by
/// the network's number of nodes.
///
/// More than 1,000 landmarks are refused with 27, then lack of memory outside the texts with 11, then an unsuitable room with 9. A failed read is fault 10
/// of the text and line being read. It is reported only if the count of failed calls of that text rose. After an `Err` the texts are not used again.
fn read_planned<P: Text, Q: Text>(
    alloc: Global,
    gr: &mut P,
    ss: &mut Q,
    room: Option<u64>,
) -> Result<Network, Failed>
    ensures network { IfOk result (λ marked. IfSome (P.bytes gr.old) (λ network. IfSome (Q.bytes ss.old) (λ landmarks. IsNetworkOf network landmarks room marked))) }
    ensures refused { IfErr result (λ failed. IfSome (P.bytes gr.old) (λ network. IfSome (Q.bytes ss.old)
        (λ landmarks. IsRefusedNetwork network landmarks room (P.source gr.new) (Q.source ss.new) failed))) }
    ensures kinds { IfErr result IsOfNetwork }
    ensures reads_network { KeepsText CountsFirst P.Text result gr.old gr.new }
    ensures reads_landmarks { KeepsText CountsSecond Q.Text result ss.old ss.new }
{
    let network = of_text(NETWORK, read_gr(alloc, gr))?;
    let landmarks = of_text(LANDMARKS, read_ss(alloc, ss, network.nodes()))?;
    planned(network, &landmarks, room).map_err(Failed::Code)
}

/// Makes a store of the network on an empty disk, with so many journal pages, 1 to 65,536, at version 0. Then it writes `ok 0` and sends it. The disk is
/// handed back.
///
/// It is refused if the disk is not empty (46), if the disk fails (43), or for lack of memory (11). Then nothing is written to `out`, and at 46 and 11 the
/// disk is as it was. A failed write is 12; then the store exists.
fn create_store<D: Disk, W: Write>(
    alloc: Global,
    disk: D,
    network: &Network,
    journal_pages: u32,
    out: &mut CountedWriter<'_, W>,
) -> (Result<(), Failed>, D)
    requires some { 1 ≤ journal_pages }
    requires few { journal_pages ≤ 65536 }
    ensures made { D.honest disk → IfDone result.0 (IsNewStore network.now journal_pages (D.content result.1) (D.left result.1)) }
    ensures empty { D.honest disk → IfDone result.0 (D.content disk ≡ []) }
    ensures refused { IfErr result.0 IsOfMaking }
    // Apart from 43, 46 comes exactly when the disk is not empty, and 11 after it.
    ensures not_empty { D.honest disk → IfErr result.0 (λ failed. IfNotEmpty failed (D.content disk ≢ [])) }
    ensures order { D.honest disk → IfErr result.0 (λ failed. IfNoMemory failed (D.content disk ≡ [])) }
    ensures untouched { D.honest disk → IfErr result.0 (λ failed. IfNoDevice failed (StaysSame D.content D.left D.moment D.left_since disk result.1)) }
    // The disk's count of failures rises if 43 is reported. At no other refusal does it rise, except perhaps at a failed write.
    ensures failed { CountsDevice (D.failures disk) (D.failures result.1) result.0 }
    ensures honest { D.honest result.1 ↔ D.honest disk }
    ensures told { OnOk result.0 (Appends (W.contents (writer_of out.old)) (W.contents (writer_of out.new)) (number_line (codes "ok ") 0)) }
    ensures unwritten { IfErr result.0 (LeavesUnwritten (writer_of out.old) (writer_of out.new)) }
    ensures writes { KeepsWriter result.0 out.old out.new }
{
    let store = match create(alloc, disk, network, journal_pages) {
        Ok(store) => store,
        Err((refusal, disk)) => return (Err(Failed::Code(refusal)), disk),
    };
    let disk = store.close();
    if let Err(failed) = put_reply(out, &Replied::Durable { version: 0 }) {
        return (Err(failed), disk);
    }
    (out.flush(), disk)
}

/// Makes a store on an empty disk, of the network of a `.gr` text with the landmarks of a `.ss` text, and writes `ok 0`. The texts are read completely, as
/// by `read_planned`, before any call of the disk. Then it is `create_store`.
pub fn create_text<D: Disk, P: Text, Q: Text, W: Write>(
    alloc: Global,
    disk: D,
    gr: &mut P,
    ss: &mut Q,
    journal_pages: u32,
    room: Option<u64>,
    out: &mut CountedWriter<'_, W>,
) -> (Result<(), Failed>, D)
    requires some { 1 ≤ journal_pages }
    requires few { journal_pages ≤ 65536 }
    ensures made { D.honest disk → IfDone result.0 (IfSome (P.bytes gr.old) (λ network. IfSome (Q.bytes ss.old)
        (λ landmarks. IsNewStoreOf network landmarks room journal_pages (D.content result.1) (D.left result.1)))) }
    ensures refused { IfErr result.0 (λ failed. IfSome (P.bytes gr.old) (λ network. IfSome (Q.bytes ss.old)
        (λ landmarks. IsRefusedCreate network landmarks room (P.source gr.new) (Q.source ss.new) failed))) }
    ensures codes { IfErr result.0 (λ failed. IsOfNetwork failed ⊎ IsOfMaking failed) }
    ensures unread { IfErr result.0 (λ failed. IfOfTexts failed (result.1 ≡ disk)) }
    // Apart from 43, 46 comes exactly when the disk is not empty, and 11 when it is empty, or before any call of it.
    ensures empty { D.honest disk → IfDone result.0 (D.content disk ≡ []) }
    ensures not_empty { D.honest disk → IfErr result.0 (λ failed. IfNotEmpty failed (D.content disk ≢ [])) }
    ensures order { D.honest disk → IfErr result.0 (λ failed. IfNoMemory failed ((D.content disk ≡ []) ⊎ (result.1 ≡ disk))) }
    ensures untouched { D.honest disk → IfErr result.0 (λ failed. IfNoDevice failed (StaysSame D.content D.left D.moment D.left_since disk result.1)) }
    // The disk's count of failures rises if 43 is reported. At no other refusal does it rise, except perhaps at a failed write.
    ensures failed { CountsDevice (D.failures disk) (D.failures result.1) result.0 }
    ensures honest { D.honest result.1 ↔ D.honest disk }
    ensures told { OnOk result.0 (Appends (W.contents (writer_of out.old)) (W.contents (writer_of out.new)) (number_line (codes "ok ") 0)) }
    ensures unwritten { IfErr result.0 (LeavesUnwritten (writer_of out.old) (writer_of out.new)) }
    ensures reads_network { KeepsText CountsFirst P.Text result.0 gr.old gr.new }
    ensures reads_landmarks { KeepsText CountsSecond Q.Text result.0 ss.old ss.new }
    ensures writes { KeepsWriter result.0 out.old out.new }
{
    match read_planned(alloc, gr, ss, room) {
        Ok(network) => create_store(alloc, disk, &network, journal_pages, out),
        Err(failed) => (Err(failed), disk),
    }
}
