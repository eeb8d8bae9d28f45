// A store's network, written as texts.
ghost use Rattle.std.specs.Prelude.{OnOk};
ghost use Rattle.printing.specs.Counting.{writer_of};
ghost use Rattle.printing.specs.Writers.{Puts};
ghost use Rattle.printing.specs.Exports.{text_of, exported_rows, SaysExported, WritesText};
ghost use Rattle.storetexts.specs.Exported.{store_origin_of, ExportRestores};

use disk::Disk;
use printing::{CountedWriter, Exported, Failed, Origin, put_exported};
use std::io::Write;
use store::Store;

/// Writes one of the texts of a store's network (`printing::put_exported`), and sends it. Its first line has the store's version, its room and the pages of
/// its journal. It makes no call of the disk, and takes no memory. A failed write is refused with 12; then an unknown part was written.
///
/// `create` with the network and the landmarks, with the store's room, and then `apply` with the closings make a store of the same network and the same
/// landmarks.
pub fn export_text<D: Disk, W: Write>(
    store: &Store<D>,
    text: Exported,
    out: &mut CountedWriter<'_, W>,
) -> Result<(), Failed>
    ensures spelled { Puts W.contents (text_of (exported_rows text store.now.network (store_origin_of store.now.version store.now.journal_pages))) result out.old out.new }
    ensures written { OnOk result (WritesText (SaysExported text store.now.network) (W.contents (writer_of out.old)) (W.contents (writer_of out.new))) }
{
    let origin = Origin {
        version: store.version(),
        journal_pages: store.journal_pages(),
    };
    put_exported(out, text, store.network(), &origin)?;
    out.flush()
}

/// What holds of the texts of a network: they give it back.
pub fn laws_of_exports()
    ensures restores { ExportRestores }
{}
