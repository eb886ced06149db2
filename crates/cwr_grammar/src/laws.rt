//! Laws of the definitions alone.
//!
//! A law is a function that does nothing. Its contract is what is proved.

ghost use Rattle.std.specs.Prelude.{◌≡◌, ◌⊎◌, ℕ, List, Some, true};
ghost use Rattle.cwr_record.specs.Layout.{StandsFor};
ghost use Rattle.cwr_record.specs.Control as control;
ghost use Rattle.cwr_record.specs.Works as works;
ghost use Rattle.cwr_record.specs.Publishers as publishers;
ghost use Rattle.cwr_record.specs.Writers as writers;
ghost use Rattle.cwr_record.specs.declared.control.Header.{Header};
ghost use Rattle.cwr_record.specs.declared.control.GroupHead.{GroupHead};
ghost use Rattle.cwr_record.specs.declared.control.GroupTrailer.{GroupTrailer};
ghost use Rattle.cwr_record.specs.declared.control.FileTrailer.{FileTrailer};
ghost use Rattle.cwr_record.specs.declared.works.WorkHead.{WorkHead};
ghost use Rattle.cwr_record.specs.declared.works.AltTitle.{AltTitle};
ghost use Rattle.cwr_record.specs.declared.works.CrossRef.{CrossRef};
ghost use Rattle.cwr_record.specs.declared.publishers.Publisher.{Publisher};
ghost use Rattle.cwr_record.specs.declared.publishers.PublisherTerritory.{PublisherTerritory};
ghost use Rattle.cwr_record.specs.declared.writers.Writer.{Writer};
ghost use Rattle.cwr_record.specs.declared.writers.WriterTerritory.{WriterTerritory};
ghost use Rattle.cwr_record.specs.declared.writers.Link.{Link};
ghost use Rattle.cwr_grammar.specs.declared.role.Role.TheVariants as role;
ghost use Rattle.cwr_grammar.specs.Faults.{IsFault, IsLeastFault};
ghost use Rattle.cwr_grammar.specs.File.{File, IsFile};
ghost use Rattle.cwr_grammar.specs.FirstFault.{first_fault};
ghost use Rattle.cwr_record.specs.Kinds.{work_kind_named};
ghost use Rattle.cwr_grammar.specs.Roles.{role_of};

/// One fault or one reading, never both. Lines that stand for a file stand for exactly one, which has a header line and
/// groups, and then there is no fault at all. All other lines have a first fault.
pub fn one_fault_or_one_reading()
    ensures some { (text : List (List ℕ)) → ((line : ℕ) × (number : ℕ) × IsLeastFault text line number) ⊎ ((f : File) × IsFile text f) }
    ensures one_fault { (text : List (List ℕ)) (k n j m : ℕ) → IsLeastFault text k n → IsLeastFault text j m → (k ≡ j) × (n ≡ m) }
    ensures one_reading { (text : List (List ℕ)) (f g : File) → IsFile text f → IsFile text g → f ≡ g }
    ensures never_both { (text : List (List ℕ)) (f : File) (line number : ℕ) → IsFile text f → IsFault text line number → ⊥ }
{}

/// The first fault that is computed line by line is the least of all faults.
pub fn first_fault_is_least()
    ensures { (text : List (List ℕ)) (line number : ℕ) → first_fault text ≡ Some (line, number) → IsLeastFault text line number }
{}

/// The role of a line that stands for a control record has the group id and the counts of that record. A file header's
/// dates and time are valid.
pub fn control_records_are_read()
    ensures header { (line : List ℕ) (x : Header) → StandsFor control.header line x → role_of line ≡ role.FileHeader true }
    ensures group_head { (line : List ℕ) (x : GroupHead) → StandsFor control.group_head line x → role_of line ≡ role.GroupHeader (work_kind_named x.transaction_type) (Some x.group) }
    ensures group_trailer { (line : List ℕ) (x : GroupTrailer) → StandsFor control.group_trailer line x → role_of line ≡ role.GroupTrailer (Some x.group) (Some x.transactions) (Some x.records) }
    ensures file_trailer { (line : List ℕ) (x : FileTrailer) → StandsFor control.file_trailer line x → role_of line ≡ role.FileTrailer (Some x.groups) (Some x.transactions) (Some x.records) }
{}

/// The role of a line that stands for a record of a registration has the transaction and the record sequence of that
/// record. The role of its head also has the kind.
pub fn sequences_are_read()
    ensures head { (line : List ℕ) (x : WorkHead) → StandsFor works.work_head line x → role_of line ≡ role.TransactionHeader (Some x.kind) (Some x.prefix.transaction) (Some x.prefix.detail) }
    ensures publisher { (line : List ℕ) (x : Publisher) → StandsFor publishers.publisher line x → role_of line ≡ role.Detail (Some x.prefix.transaction) (Some x.prefix.detail) }
    ensures publisher_territory { (line : List ℕ) (x : PublisherTerritory) → StandsFor publishers.publisher_territory line x → role_of line ≡ role.Detail (Some x.prefix.transaction) (Some x.prefix.detail) }
    ensures writer { (line : List ℕ) (x : Writer) → StandsFor writers.writer line x → role_of line ≡ role.Detail (Some x.prefix.transaction) (Some x.prefix.detail) }
    ensures writer_territory { (line : List ℕ) (x : WriterTerritory) → StandsFor writers.writer_territory line x → role_of line ≡ role.Detail (Some x.prefix.transaction) (Some x.prefix.detail) }
    ensures link { (line : List ℕ) (x : Link) → StandsFor writers.link line x → role_of line ≡ role.Detail (Some x.prefix.transaction) (Some x.prefix.detail) }
    ensures alt_title { (line : List ℕ) (x : AltTitle) → StandsFor works.alt_title line x → role_of line ≡ role.Detail (Some x.prefix.transaction) (Some x.prefix.detail) }
    ensures cross_ref { (line : List ℕ) (x : CrossRef) → StandsFor works.cross_ref line x → role_of line ≡ role.Detail (Some x.prefix.transaction) (Some x.prefix.detail) }
{}
