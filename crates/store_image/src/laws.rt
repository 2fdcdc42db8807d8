//! What holds of images: functions that do nothing, whose contracts are laws.

ghost use Rattle.byte_fields.specs.Codec.{IsCodec};
ghost use Rattle.byte_fields.specs.Cuts.{IsCut};
ghost use Rattle.store_image.specs.Reading.{client_at, server_at};
ghost use Rattle.store_image.specs.Spelling.{client, client_in, ClientFits, ClientFitsIn, server, server_in, ServerFits, ServerFitsIn};
ghost use Rattle.tree_values.specs.declared.format.Format.{Format};
ghost use Rattle.tree_values.specs.declared.format.Format.TheVariants.{Second};
ghost use Rattle.store_image.specs.Fields.{client_fields, server_fields};
ghost use Rattle.store_image.specs.Broken.{BrokenKeptEntries, BrokenEntryLists, BrokenImages};
ghost use Rattle.store_image.specs.BrokenRecords.{BrokenClientRecords, BrokenServerRecords};
ghost use Rattle.store_image.specs.Laws.{RecordsAreAppended, CutRecordsAreTorn, BytesAreKeptForOneClient, BytesAreKeptForOneServer};
ghost use Rattle.store_image.specs.Laws.{ImagesAreSmall, CutClientImagesAreRefused, CutServerImagesAreRefused, WrittenClientsAreKept};
ghost use Rattle.store_image.specs.Laws.{WrittenServersAreKept};

/// States that each image has one spelling in each format that has it, and each spelling one image.
pub fn images_are_spelled_once()
    ensures clients { (format : Format) → IsCodec (client_at format) (client_in format) (ClientFitsIn format) }
    ensures servers { (format : Format) → IsCodec (server_at format) (server_in format) (ServerFitsIn format) }
{}

/// States that what is written is read, and that bytes are kept for one state.
pub fn kept_states_are_read()
    ensures client_read { WrittenClientsAreKept }
    ensures server_read { WrittenServersAreKept }
    ensures client_once { BytesAreKeptForOneClient }
    ensures server_once { BytesAreKeptForOneServer }
{}

/// States that records that may come can be appended to what is kept.
pub fn records_are_appended()
    ensures { RecordsAreAppended }
{}

/// States that what is kept outlives a record that is appended in part.
pub fn cut_records_are_torn()
    ensures { CutRecordsAreTorn }
{}

/// States that, where the bytes end inside an image that was written so, the field in which they end is the faulty one.
pub fn cut_images_name_the_field()
    ensures clients { IsCut (client_at Second) client client_fields ClientFits }
    ensures servers { IsCut (server_at Second) server server_fields ServerFits }
    ensures client_refused { CutClientImagesAreRefused }
    ensures server_refused { CutServerImagesAreRefused }
{}

/// States how large images are at most, and that a keeper loads more.
pub fn images_are_small()
    ensures { ImagesAreSmall }
{}

/// States that an image of the second format that breaks a rule is refused at the field of the rule.
pub fn broken_images_name_the_field()
    ensures entries { BrokenKeptEntries }
    ensures lists { BrokenEntryLists }
    ensures images { BrokenImages }
{}

/// States that a record of the second format that breaks a rule is refused at the field of the rule, behind whatever is kept whole.
pub fn broken_records_name_the_field()
    ensures clients { BrokenClientRecords }
    ensures servers { BrokenServerRecords }
{}
