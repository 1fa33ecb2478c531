//! The laws of writes and of batches.
ghost use Rattle.std.specs.Prelude.{◌≡◌, ◌≢◌, ℕ, ◌≤◌, ℤ, Bool, true, false, List, [], ◌∷◌, ◌++◌, Option, Some, None, Ok, Err, length, option_map};
ghost use Rattle.std.specs.FinMap.{get};
ghost use Rattle.std.specs.List.{Contains};
ghost use Rattle.fs_path.specs.declared.field.FieldPath.{FieldPath};
ghost use Rattle.fs_path.specs.declared.name.DocName.{DocName};
ghost use Rattle.fs_status.specs.Refusal.{refusal_of};
ghost use Rattle.fs_status.specs.declared.refusal.Refusal.{Refusal as Refused};
ghost use Rattle.fs_value.specs.Data.{Data, members_of, members_depth};
ghost use Rattle.fs_value.specs.FieldPaths.{get_fields, IsApart};
ghost use Rattle.fs_value.specs.Limits.{deepest_value, largest_document};
ghost use Rattle.fs_value.specs.Size.{document_size};
ghost use Rattle.fs_value.specs.declared.document.Document.{Document};
ghost use Rattle.fs_write.specs.After.{after_batch};
ghost use Rattle.fs_write.specs.Batch.{Docs, batch, is_unchanged, document_after, AreNamed, AreChanges, IsOutcome};
ghost use Rattle.fs_write.specs.OneWrite.{Fault, merged, fields_left, one_write};
ghost use Rattle.fs_write.specs.Refused.{reason_of};
ghost use Rattle.fs_write.specs.Rules.{some_overlap};
ghost use Rattle.fs_write.specs.Transforms.{transformed};
ghost use Rattle.fs_write.specs.WrittenName.{written_name, is_written};
ghost use Rattle.fs_write.specs.declared.change.Change.{Change};
ghost use Rattle.fs_write.specs.declared.write.Act.TheVariants.{Set, Delete};
ghost use Rattle.fs_write.specs.declared.write.Precondition.TheVariants as condition;
ghost use Rattle.fs_write.specs.declared.write.Write.{Write};
ghost use Rattle.fs_write.specs.declared.write_result.WriteResult.{WriteResult};

use fs_value::paths_are_lawful;

/// The laws of one write, for all documents, writes and times. An update leaves what its transforms make of the fields that
/// its act leaves: without a mask and transforms, exactly its fields. With a mask, what is at a path of the mask is that of
/// the input, and what is at a path apart from all of them stays. A document with the fields of before is the one of
/// before, and the result reports its old update time. Another is updated at the time of the commit, and is created then
/// only where there was none. It never nests too deep and is never too large. A delete leaves none, and without a condition
/// it is never refused.
pub fn writes_are_lawful()
    ensures fields { (before : Option Document) (w : Write) (t : ℤ) (d : Document) (r : WriteResult) → one_write before w t ≡ Ok (Some d, r)
        → Some d.fields ≡ option_map (transformed w.transforms t) (fields_left w.act before) }
    ensures set { (before : Option Document) (w : Write) (t : ℤ) (d : Document) (r : WriteResult) (name : DocName) (fs : List (List ℕ × Data))
        → one_write before w t ≡ Ok (Some d, r) → w.act ≡ Set name fs → w.transforms ≡ [] → d.fields ≡ fs }
    ensures masked { (mask : List FieldPath) (input : List (List ℕ × Data)) (fs : List (List ℕ × Data)) (p : FieldPath)
        → some_overlap mask ≡ false → Contains mask p → get_fields p.parts (merged mask input fs) ≡ get_fields p.parts input }
    ensures unmasked { (mask : List FieldPath) (input : List (List ℕ × Data)) (fs : List (List ℕ × Data)) (q : List (List ℕ))
        → ((p : FieldPath) → Contains mask p → IsApart p.parts q) → get_fields q (merged mask input fs) ≡ get_fields q fs }
    ensures same { (before : Document) (w : Write) (t : ℤ) (d : Document) (r : WriteResult) → one_write (Some before) w t ≡ Ok (Some d, r)
        → d.fields ≡ before.fields → (d ≡ before) × (r.updated ≡ Some before.updated) }
    ensures other { (before : Document) (w : Write) (t : ℤ) (d : Document) (r : WriteResult) → one_write (Some before) w t ≡ Ok (Some d, r)
        → d.fields ≢ before.fields → (d.updated ≡ t) × (r.updated ≡ Some t) }
    ensures created { (before : Document) (w : Write) (t : ℤ) (d : Document) (r : WriteResult) → one_write (Some before) w t ≡ Ok (Some d, r)
        → d.created ≡ before.created }
    ensures made { (w : Write) (t : ℤ) (d : Document) (r : WriteResult) → one_write None w t ≡ Ok (Some d, r)
        → (d.created ≡ t) × (d.updated ≡ t) × (r.updated ≡ Some t) }
    ensures fit { (before : Option Document) (w : Write) (t : ℤ) (d : Document) (r : WriteResult) → one_write before w t ≡ Ok (Some d, r)
        → (members_depth (members_of d.fields) ≤ deepest_value) × (document_size d ≤ largest_document) }
    ensures deleted { (before : Option Document) (after : Option Document) (w : Write) (t : ℤ) (r : WriteResult) (name : DocName)
        → one_write before w t ≡ Ok (after, r) → w.act ≡ Delete name → (after ≡ None) × (r.updated ≡ None) }
    ensures delete_done { (before : Option Document) (w : Write) (t : ℤ) (name : DocName) → w.act ≡ Delete name → w.condition ≡ condition.None
        → one_write before w t ≡ Ok (None, record { updated = None; transforms = [] }) }
{
    paths_are_lawful();
}

/// The laws of batches, for all documents, writes and times. A batch whose first refused write has some number is refused
/// with that number, and a refused batch has no changes. There is one list of changes, and one of results. A name whose
/// document ends with the existence and the fields of before has its document of before, and any other has what the writes
/// left; the documents after the batch are those, and after a refused one those of before. A name that isn't written has its
/// document of before, and of one that is, the last write decides. A delete alone leaves none. Only the documents that the
/// writes name matter. The changes are what differs between the documents before and after the batch, and where a name's
/// existence and fields don't differ its document doesn't. Documents that stand at their own names do so afterwards.
pub fn batches_are_lawful()
    ensures first_refused { (docs : Docs) (done : List Write) (w : Write) (rest : List Write) (t : ℤ) (so_far : Docs × List WriteResult) (fault : Fault)
        → batch docs done t ≡ Ok so_far → one_write (get so_far.0 (written_name w)) w t ≡ Err fault
        → batch docs (done ++ w ∷ rest) t ≡ Err (refusal_of (reason_of (length done) fault)) }
    ensures refused { (docs : Docs) (ws : List Write) (t : ℤ) (e : Refused) (cs : List Change) (rs : List WriteResult)
        → batch docs ws t ≡ Err e → ¬ IsOutcome docs ws t cs rs }
    ensures one_list { (docs : Docs) (ws : List Write) (t : ℤ) (cs : List Change) (ds : List Change) (rs : List WriteResult) (qs : List WriteResult)
        → IsOutcome docs ws t cs rs → IsOutcome docs ws t ds qs → (cs ≡ ds) × (rs ≡ qs) }
    ensures back { (docs : Docs) (ws : List Write) (t : ℤ) (cs : List Change) (rs : List WriteResult) (name : DocName) (had : IsOutcome docs ws t cs rs)
        → is_unchanged (get docs name) (get had.after name) ≡ true → document_after docs cs name ≡ get docs name }
    ensures differs { (docs : Docs) (ws : List Write) (t : ℤ) (cs : List Change) (rs : List WriteResult) (name : DocName) (had : IsOutcome docs ws t cs rs)
        → is_unchanged (get docs name) (get had.after name) ≡ false → document_after docs cs name ≡ get had.after name }
    ensures left { (docs : Docs) (ws : List Write) (t : ℤ) (cs : List Change) (rs : List WriteResult) (name : DocName)
        → IsOutcome docs ws t cs rs → get (after_batch docs ws t) name ≡ document_after docs cs name }
    ensures as_it_was { (docs : Docs) (ws : List Write) (t : ℤ) (done : Docs × List WriteResult) → batch docs ws t ≡ Ok done
        → (name : DocName) (before : Document) (after : Document) → get docs name ≡ Some before → get done.0 name ≡ Some after
        → before.fields ≡ after.fields → get (after_batch docs ws t) name ≡ Some before }
    ensures unwritten { (docs : Docs) (ws : List Write) (t : ℤ) (name : DocName) → is_written name ws ≡ false
        → get (after_batch docs ws t) name ≡ get docs name }
    ensures unchanged { (docs : Docs) (ws : List Write) (t : ℤ) (name : DocName) → is_unchanged (get docs name) (get (after_batch docs ws t) name) ≡ true
        → get (after_batch docs ws t) name ≡ get docs name }
    ensures changed { (docs : Docs) (ws : List Write) (t : ℤ) (cs : List Change) (rs : List WriteResult)
        → IsOutcome docs ws t cs rs → AreChanges docs (after_batch docs ws t) cs }
    ensures at_own_names { (docs : Docs) (ws : List Write) (t : ℤ) → AreNamed docs → AreNamed (after_batch docs ws t) }
    ensures refused_stays { (docs : Docs) (ws : List Write) (t : ℤ) (e : Refused) → batch docs ws t ≡ Err e → after_batch docs ws t ≡ docs }
    ensures set_last { (docs : Docs) (earlier : List Write) (w : Write) (later : List Write) (t : ℤ) (done : Docs × List WriteResult) (name : DocName) (fs : List (List ℕ × Data))
        → batch docs (earlier ++ w ∷ later) t ≡ Ok done → w.act ≡ Set name fs → w.transforms ≡ [] → is_written name later ≡ false
        → option_map (λ d. d.fields) (get (after_batch docs (earlier ++ w ∷ later) t) name) ≡ Some fs }
    ensures delete_last { (docs : Docs) (earlier : List Write) (w : Write) (later : List Write) (t : ℤ) (done : Docs × List WriteResult) (name : DocName)
        → batch docs (earlier ++ w ∷ later) t ≡ Ok done → w.act ≡ Delete name → is_written name later ≡ false
        → get (after_batch docs (earlier ++ w ∷ later) t) name ≡ None }
    ensures one_delete { (docs : Docs) (w : Write) (t : ℤ) (cs : List Change) (rs : List WriteResult) (name : DocName)
        → IsOutcome docs (w ∷ []) t cs rs → w.act ≡ Delete name → document_after docs cs name ≡ None }
    ensures named { (docs : Docs) (other : Docs) (ws : List Write) (t : ℤ) (cs : List Change) (rs : List WriteResult)
        → ((w : Write) → Contains ws w → get docs (written_name w) ≡ get other (written_name w))
        → IsOutcome docs ws t cs rs → IsOutcome other ws t cs rs }
    ensures named_refused { (docs : Docs) (other : Docs) (ws : List Write) (t : ℤ) (e : Refused)
        → ((w : Write) → Contains ws w → get docs (written_name w) ≡ get other (written_name w))
        → batch docs ws t ≡ Err e → batch other ws t ≡ Err e }
{}
