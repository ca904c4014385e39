ghost use Rattle.std.specs.Prelude.{◌≡◌, ℕ, List};
ghost use Rattle.ndjson_load.specs.Mappings.{IsMapping, IsMappingFault};
ghost use Rattle.ndjson_load.specs.declared.cause.MappingCause.{MappingCause};
ghost use Rattle.ndjson_load.specs.declared.column.MappedColumn.{MappedColumn};

/// A law: a mapping gives one list of columns at most.
pub fn one_mapping()
    ensures { (bytes : List ℕ) (columns others : List MappedColumn) → IsMapping bytes columns → IsMapping bytes others → columns ≡ others }
{}

/// A law: a mapping has one fault at most.
pub fn one_mapping_fault()
    ensures { (bytes : List ℕ) (cause other : MappingCause) → IsMappingFault bytes cause → IsMappingFault bytes other → cause ≡ other }
{}

/// A law: a mapping that gives columns has no fault.
pub fn no_mapping_fault()
    ensures { (bytes : List ℕ) (columns : List MappedColumn) (cause : MappingCause) → IsMapping bytes columns → IsMappingFault bytes cause → ⊥ }
{}
