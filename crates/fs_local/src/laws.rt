//! The laws of clients.
ghost use Rattle.fs_local.specs.Exchange.{ExchangeStays};
ghost use Rattle.fs_local.specs.Laws.{AcknowledgedStays, AlwaysStands, ConnectedShowsTheSame, GatheredIsStaged, LostShowsTheSame, MembersAreStaged, ShowsWhatItTook};

/// What holds of every client, whatever it does and is told. What always stands of it stands after every run (`stands`): it has documents
/// only of targets that it listens to, each of one at least, and the batches that its snapshot has are gone.
///
/// A batch that was acknowledged stays in the overlay until the client has a snapshot of its time (`acknowledged`). A lost link changes
/// nothing that is shown, but that it is from the cache then (`lost`), and so does a new one (`connected`).
///
/// Where nothing is uncovered, a target is shown just as its view over the documents that the client's are of, if of this target it took
/// the view (`taken`). What whoever reads the messages of a target has of it is what the client has staged (`gathered`), if each change names
/// all targets that have its document, as those do that a raise sends; which documents the target has, they agree on even else (`members`).
///
/// A batch that is under way to the client's stream is its oldest that isn't answered, or one that is; a response that is under way back is of
/// a batch that the client knows to be finished, or of the next (`exchange`). So none is counted twice, whatever is lost or sent again.
pub fn clients_are_lawful()
    ensures stands { AlwaysStands }
    ensures acknowledged { AcknowledgedStays }
    ensures lost { LostShowsTheSame }
    ensures connected { ConnectedShowsTheSame }
    ensures taken { ShowsWhatItTook }
    ensures gathered { GatheredIsStaged }
    ensures members { MembersAreStaged }
    ensures exchange { ExchangeStays }
{}
