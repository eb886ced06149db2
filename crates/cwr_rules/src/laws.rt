//! What the definitions mean: the record order is that of the pattern, and the faults are all that hold, in order. What
//! is read of a line that stands for a record is that part of the record.
//!
//! A law is a function that does nothing. Its contract is what is proved.

ghost use Rattle.std.specs.Prelude.{◌≡◌, ◌↔◌, ◌∷◌, ℕ, true, List, reverse, IsSome, IsTrue};
ghost use Rattle.cwr_call.specs.declared.transaction_fault.Fault.{Fault};
ghost use Rattle.cwr_record.specs.declared.works.WorkKind.{WorkKind};
ghost use Rattle.cwr_rules.specs.declared.record.Record.{Record};
ghost use Rattle.cwr_rules.specs.Holds.{Holds, IsIn};
ghost use Rattle.cwr_call.specs.Lawful.{rises};
ghost use Rattle.cwr_rules.specs.LastBlock.{last_block};
ghost use Rattle.cwr_rules.specs.Order.{IsPrefix, types};
ghost use Rattle.cwr_record.specs.Columns.{field_at, every_record_type};
ghost use Rattle.cwr_record.specs.Layout.{StandsFor};
ghost use Rattle.cwr_record.specs.Works as works;
ghost use Rattle.cwr_record.specs.Publishers as publishers;
ghost use Rattle.cwr_record.specs.Writers as writers;
ghost use Rattle.cwr_record.specs.declared.works.WorkHead.{WorkHead};
ghost use Rattle.cwr_record.specs.declared.works.AltTitle.{AltTitle};
ghost use Rattle.cwr_record.specs.declared.works.CrossRef.{CrossRef};
ghost use Rattle.cwr_record.specs.declared.publishers.Publisher.{Publisher};
ghost use Rattle.cwr_record.specs.declared.publishers.PublisherTerritory.{PublisherTerritory};
ghost use Rattle.cwr_record.specs.declared.writers.Writer.{Writer};
ghost use Rattle.cwr_record.specs.declared.writers.WriterTerritory.{WriterTerritory};
ghost use Rattle.cwr_record.specs.declared.writers.Link.{Link};
ghost use Rattle.cwr_rules.specs.declared.record.Record.TheVariants as of_rules;
ghost use Rattle.cwr_rules.specs.OfRecords.{IsHeadOf, of_publisher, of_publisher_territory, of_writer, of_writer_territory, of_link};
ghost use Rattle.cwr_rules.specs.Records.{record_of};
ghost use Rattle.cwr_rules.specs.Rules.{is_out_of_order, name_of};
ghost use Rattle.cwr_rules.specs.Totals.{collection, is_over, is_over_somewhere};
ghost use Rattle.cwr_rules.specs.Faults.{faults_of};

/// The order is kept after some records exactly where their types are a prefix of the pattern.
pub fn order_is_prefix()
    ensures { (before : List Record) → IsSome (last_block before) ↔ IsPrefix (types (reverse before)) }
{}

/// The order breaks at the record with which the types are no prefix any more, so at one record at most.
pub fn order_breaks_once()
    ensures { (before : List Record) (r : Record) → (is_out_of_order before r ≡ true) ↔ (IsPrefix (types (reverse before)) × ¬ IsPrefix (types (reverse (r ∷ before)))) }
{}

/// The faults of a transaction rise strictly, and are exactly those that hold.
pub fn faults_are_all()
    ensures rises { (kind : WorkKind) (head : List ℕ) (records : List Record) → IsTrue (rises (faults_of kind head records)) }
    ensures all { (kind : WorkKind) (head : List ℕ) (records : List Record) (f : Fault) → IsIn f (faults_of kind head records) ↔ Holds kind head records f }
{}

/// A collection total is too large exactly where it is so for some code, whatever codes the records name.
pub fn territories_are_all()
    ensures { (records : List Record) → (is_over_somewhere records ≡ true) ↔ ((code : ℕ) × (is_over (collection code records) ≡ true)) }
{}

/// The record type in a fault is the first three bytes of the record's line.
pub fn types_are_names()
    ensures { (line : List ℕ) → name_of (record_of line) ≡ field_at line every_record_type }
{}

/// Of a line that stands for a registration's head, the rules and the call read the head's own title, number, code and
/// dates.
pub fn heads_are_read()
    ensures { (line : List ℕ) (x : WorkHead) → StandsFor works.work_head line x → IsHeadOf line x }
{}

/// Of a line that stands for a detail, the rules read the detail's own party, shares, indicator and territory.
pub fn details_are_read()
    ensures publisher { (line : List ℕ) (x : Publisher) → StandsFor publishers.publisher line x → record_of line ≡ of_publisher x }
    ensures publisher_territory { (line : List ℕ) (x : PublisherTerritory) → StandsFor publishers.publisher_territory line x → record_of line ≡ of_publisher_territory x }
    ensures writer { (line : List ℕ) (x : Writer) → StandsFor writers.writer line x → record_of line ≡ of_writer x }
    ensures writer_territory { (line : List ℕ) (x : WriterTerritory) → StandsFor writers.writer_territory line x → record_of line ≡ of_writer_territory x }
    ensures link { (line : List ℕ) (x : Link) → StandsFor writers.link line x → record_of line ≡ of_link x }
    ensures alt_title { (line : List ℕ) (x : AltTitle) → StandsFor works.alt_title line x → record_of line ≡ of_rules.Alt }
    ensures cross_ref { (line : List ℕ) (x : CrossRef) → StandsFor works.cross_ref line x → record_of line ≡ of_rules.Xrf }
{}
